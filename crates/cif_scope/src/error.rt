//! Why a source has no scopes.

ghost use Rattle.std.specs.Prelude.{◌≡◌};
ghost use Rattle.cif_scope.specs.declared.error.ScopeErr.TheVariants.{Memory as no_memory};

use cif_base::Memory;

/// Why a source has no scopes, with the byte where that is, counted from 0, or that memory ran out.
#[derive(Clone, Copy, Debug, PartialEq, Eq)]
pub enum ScopeErr {
    /// A part of the name that begins there is declared nowhere.
    Unknown { at: u32 },
    /// One scope declares one name at both places.
    Duplicate { at: u32, first: u32 },
    /// The name denotes another sort than its position asks, or the instance has another number of arguments than its
    /// definition has parameters.
    WrongKind { at: u32 },
    /// The definition, type or constant reaches itself.
    DefinitionCycle { at: u32 },
    Memory,
}

impl From<Memory> for ScopeErr {
    ghost from_gives = { λ _ e. e ≡ no_memory };

    fn from(_error: Memory) -> ScopeErr {
        ScopeErr::Memory
    }
}
