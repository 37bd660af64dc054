//! Why algebraic variables have no order.

ghost use Rattle.std.specs.Prelude.{◌≡◌};
ghost use Rattle.cif_alg_order.specs.declared.error.AlgebraicErr.TheVariants.{Memory as no_memory};

use cif_base::Memory;

/// An algebraic variable depends on itself, and none with a lower number does; or memory ran out.
#[derive(Clone, Copy, Debug, PartialEq, Eq)]
pub enum AlgebraicErr {
    Cycle { alg: u32 },
    Memory,
}

impl From<Memory> for AlgebraicErr {
    ghost from_gives = { λ _ e. e ≡ no_memory };

    fn from(_error: Memory) -> AlgebraicErr {
        AlgebraicErr::Memory
    }
}
