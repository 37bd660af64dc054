//! The ranges of what expressions name.

ghost use Rattle.std.specs.Prelude.{◌≡◌, pos, slice_index_or};
ghost use Rattle.cif_base.specs.Bounds.{between};

use cif_base::Iv;

/// The ranges of variables, of inputs and of algebraic variables, each by number, and that of the received value. A number
/// past the end of a table has the range of 0 alone.
#[derive(Clone, Copy, Debug)]
pub struct Ranges<'a> {
    pub vars: &'a [Iv],
    pub inputs: &'a [Iv],
    pub algs: &'a [Iv],
    pub received: Iv,
}

/// The range with this number in a table.
pub(crate) fn range_at(table: &[Iv], number: u32) -> Iv
    ensures { result ≡ slice_index_or table.now number (between (pos 0) (pos 0)) }
{
    match table.get(number as usize) {
        Some(range) => *range,
        None => Iv::point(0),
    }
}
