//! Why a text has no tokens.

ghost use Rattle.std.specs.Prelude.{◌≡◌};
ghost use Rattle.cif_lex.specs.declared.error.LexErr.TheVariants.{Memory as no_memory};

use std::alloc::AllocFailed;

/// Why a text has no tokens, with the byte where that shows, counted from 0; or memory ran out.
#[derive(Clone, Copy, Debug, PartialEq, Eq)]
pub enum LexErr {
    /// No token, blank or comment begins there.
    BadByte { at: u32 },
    /// The number that begins there exceeds 2147483647.
    NumberTooBig { at: u32 },
    /// The comment that `/*` begins there has no end.
    OpenComment { at: u32 },
    Memory,
}

impl<T: Drop> From<AllocFailed<T>> for LexErr {
    ghost from_gives = { λ _ e. e ≡ no_memory };

    fn from(_error: AllocFailed<T>) -> LexErr {
        LexErr::Memory
    }
}
