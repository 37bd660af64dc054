//! Why a text is not read, and why reading stops.

ghost use Rattle.std.specs.Prelude.{◌≡◌};
ghost use Rattle.st_read.specs.declared.error.StErr.TheVariants.{Memory as no_memory};
ghost use Rattle.st_read.specs.declared.error.Stop.TheVariants.{NoMemory};

use cif_base::Memory;
use std::alloc::AllocFailed;

/// Why a text is not read, with a byte where that shows, counted from 0; or memory ran out.
#[derive(Clone, Copy, Debug, PartialEq, Eq)]
pub enum StErr {
    /// No token, blank or comment begins there.
    StBadByte { at: u32 },
    /// The number that begins there exceeds 9223372036854775807.
    StNumberTooBig { at: u32 },
    /// The comment that `(*` begins there has no end.
    StOpenComment { at: u32 },
    /// The tokens derive no program within the depth limits; a place in the text where that shows.
    StNotRead { at: u32 },
    Memory,
}

impl From<Memory> for StErr {
    ghost from_gives = { λ _ e. e ≡ no_memory };

    fn from(_error: Memory) -> StErr {
        StErr::Memory
    }
}

impl<T: Drop> From<AllocFailed<T>> for StErr {
    ghost from_gives = { λ _ e. e ≡ no_memory };

    fn from(_error: AllocFailed<T>) -> StErr {
        StErr::Memory
    }
}

/// Why a reader of tokens stopped: memory ran out, or it can't go on with so many bytes left.
#[derive(Clone, Copy, Debug, PartialEq, Eq)]
pub enum Stop {
    NoMemory,
    NotTaken(usize),
}

impl From<Memory> for Stop {
    ghost from_gives = { λ _ e. e ≡ NoMemory };

    fn from(_error: Memory) -> Stop {
        Stop::NoMemory
    }
}

impl<T: Drop> From<AllocFailed<T>> for Stop {
    ghost from_gives = { λ _ e. e ≡ NoMemory };

    fn from(_error: AllocFailed<T>) -> Stop {
        Stop::NoMemory
    }
}
