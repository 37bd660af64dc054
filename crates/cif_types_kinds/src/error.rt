//! Why a body has no kinds.

ghost use Rattle.std.specs.Prelude.{◌≡◌};
ghost use Rattle.cif_types_kinds.specs.declared.error.KindErr.TheVariants.{Memory as no_memory};

use cif_base::Memory;

/// Why a body has no kinds, with the byte where that is, counted from 0, or that memory ran out.
#[derive(Clone, Copy, Debug, PartialEq, Eq)]
pub enum KindErr {
    /// The expression there has another kind than its position asks for.
    Mismatch { at: u32 },
    Memory,
}

impl From<Memory> for KindErr {
    ghost from_gives = { λ _ e. e ≡ no_memory };

    fn from(_error: Memory) -> KindErr {
        KindErr::Memory
    }
}
