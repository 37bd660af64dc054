//! Why an expression is not constant.

ghost use Rattle.std.specs.Prelude.{◌≡◌};
ghost use Rattle.cif_types_constancy.specs.declared.error.ConstancyErr.TheVariants.{Memory as no_memory};

use cif_base::Memory;

/// Why not all expressions that are to be constant are, with the byte where that is, counted from 0, or that memory ran out.
#[derive(Clone, Copy, Debug, PartialEq, Eq)]
pub enum ConstancyErr {
    /// The name there stands in a bound of a type, the value of a constant or a first value, and is no constant and no literal.
    NotConstant { at: u32 },
    Memory,
}

impl From<Memory> for ConstancyErr {
    ghost from_gives = { λ _ e. e ≡ no_memory };

    fn from(_error: Memory) -> ConstancyErr {
        ConstancyErr::Memory
    }
}
