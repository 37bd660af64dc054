//! Why nothing is read from the front of a list of tokens.

ghost use Rattle.std.specs.Prelude.{◌≡◌};
ghost use Rattle.cif_parse_expr.specs.declared.error.ReadError.TheVariants as reason;

use cif_base::Memory;
use std::alloc::{AllocError, AllocFailed};

/// Why nothing is read.
#[derive(Clone, Copy, Debug, PartialEq, Eq)]
pub enum ReadError {
    Memory,
    /// The token that has so many tokens from it on, itself among them, can't be there; 0 at the end.
    NotRead(usize),
    /// What is read nests too deep.
    TooDeep,
}

impl From<Memory> for ReadError {
    ghost from_gives = { λ _ e. e ≡ reason.Memory };

    fn from(_error: Memory) -> ReadError {
        ReadError::Memory
    }
}

impl From<AllocError> for ReadError {
    ghost from_gives = { λ _ e. e ≡ reason.Memory };

    fn from(_error: AllocError) -> ReadError {
        ReadError::Memory
    }
}

impl<T: Drop> From<AllocFailed<T>> for ReadError {
    ghost from_gives = { λ _ e. e ≡ reason.Memory };

    fn from(_error: AllocFailed<T>) -> ReadError {
        ReadError::Memory
    }
}
