//! Why a program is refused.

ghost use Rattle.std.specs.Prelude.{◌≡◌};
ghost use Rattle.st_check.specs.declared.error.StCheckErr.TheVariants.{Memory as no_memory};

use cif_base::Memory;
use std::alloc::{AllocError, AllocFailed};

/// The first check that a program breaks, with the number of a statement, in the order of first words, or of a variable, in
/// the order of declaration, each from 0; or memory ran out.
#[derive(Clone, Copy, Debug, PartialEq, Eq)]
pub enum StCheckErr {
    /// A name of the statement's own expressions or its target is undeclared.
    StUnknown { statement: u32 },
    /// An earlier variable has the same name.
    StDuplicate { variable: u32 },
    /// An operand, a condition or the assigned value has the wrong one of BOOL and integer.
    StMismatch { statement: u32 },
    /// The target is an input or a constant.
    StNotAssignable { statement: u32 },
    /// The subrange has its lower bound above its upper one, or the first value isn't one of the type.
    StInitRange { variable: u32 },
    Memory,
}

impl From<Memory> for StCheckErr {
    ghost from_gives = { λ _ e. e ≡ no_memory };

    fn from(_error: Memory) -> StCheckErr {
        StCheckErr::Memory
    }
}

impl From<AllocError> for StCheckErr {
    ghost from_gives = { λ _ e. e ≡ no_memory };

    fn from(_error: AllocError) -> StCheckErr {
        StCheckErr::Memory
    }
}

impl<T: Drop> From<AllocFailed<T>> for StCheckErr {
    ghost from_gives = { λ _ e. e ≡ no_memory };

    fn from(_error: AllocFailed<T>) -> StCheckErr {
        StCheckErr::Memory
    }
}
