//! Why the assigned variables of a source are refused.

ghost use Rattle.std.specs.Prelude.{◌≡◌};
ghost use Rattle.cif_types_targets.specs.declared.error.TargetErr.TheVariants.{Memory as no_memory};

use cif_base::Memory;

/// An assigned variable that breaks a rule, with the byte where its name begins, counted from 0; or memory ran out.
#[derive(Clone, Copy, Debug, PartialEq, Eq)]
pub enum TargetErr {
    /// It isn't declared in the body that assigns it, or its name passes an instance.
    NotOwn { at: u32 },
    /// An earlier update of the same list assigns it too, at any depth.
    AssignedTwice { at: u32 },
    Memory,
}

impl From<Memory> for TargetErr {
    ghost from_gives = { λ _ e. e ≡ no_memory };

    fn from(_error: Memory) -> TargetErr {
        TargetErr::Memory
    }
}
