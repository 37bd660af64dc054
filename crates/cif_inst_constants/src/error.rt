//! Why constants have no values.

ghost use Rattle.std.specs.Prelude.{◌≡◌};
ghost use Rattle.cif_inst_constants.specs.declared.error.ConstErr.TheVariants.{Memory as no_memory};

use cif_base::Memory;

/// Why constants have no values, with the byte where that is, counted from 0, or that memory ran out.
#[derive(Clone, Copy, Debug, PartialEq, Eq)]
pub enum ConstErr {
    /// In the constant expression there, every operand evaluated, a value leaves 64 bits or a divisor is 0; or its value leaves
    /// its declared range; or a bound there leaves 32 bits; or the lower bound there exceeds the upper one.
    ConstantRange { at: u32 },
    Memory,
}

impl From<Memory> for ConstErr {
    ghost from_gives = { λ _ e. e ≡ no_memory };

    fn from(_error: Memory) -> ConstErr {
        ConstErr::Memory
    }
}
