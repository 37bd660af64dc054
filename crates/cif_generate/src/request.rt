//! What `generate` is asked for.

ghost use Rattle.std.specs.Prelude.{◌≤◌};

use plc_frame::Bounds;

/// What `generate` is asked for. Both classes together have fewer rounds than a scan has loop turns.
#[derive(Drop)]
pub struct Generate<'a> {
    pub file: &'a str,
    pub bounds: Bounds,
    ghost few_unc: { bounds.unc ≤ 10000 },
    ghost few_con: { bounds.con ≤ 10000 },
}
