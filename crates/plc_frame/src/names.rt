//! The names of the mark that something fired and of the counter of rounds.

ghost use Rattle.std.specs.Prelude.{◌≡◌, IfOk};
ghost use Rattle.plc_model.specs.Frame.{fired, rounds_made};

use cif_base::{Memory, Text};
use std::alloc::Global;

/// The mark that something fired in a round.
pub fn name_of_mark(alloc: Global) -> Result<Text, Memory>
    ensures { IfOk result (λ t. t ≡ fired) }
{
    Text::from_slice(alloc, b"T0_fired")
}

/// The counter of the rounds of a loop.
pub fn name_of_counter(alloc: Global) -> Result<Text, Memory>
    ensures { IfOk result (λ t. t ≡ rounds_made) }
{
    Text::from_slice(alloc, b"T1_rounds")
}
