//! Classes of bytes.

ghost use Rattle.std.specs.Prelude.{◌≡◌};
ghost use Rattle.grammar.specs.Bytes as bytes;
ghost use Rattle.grammar.specs.Classes.{letter, digit, wordy};

/// Whether a byte is a space, a tab, a line feed or a carriage return.
#[inline(always)]
pub fn is_blank(byte: u8) -> bool
    ensures { result ≡ bytes.is_blank byte }
{
    byte == b' ' || byte == b'\t' || byte == b'\n' || byte == b'\r'
}

/// Whether a byte is a letter or `_`.
#[inline(always)]
#[tactic(auto, unfolding(crate::specs::Classes::letter))]
pub fn begins_word(byte: u8) -> bool
    ensures { result ≡ letter byte }
{
    byte.is_ascii_alphabetic() || byte == b'_'
}

/// Whether a byte is a decimal digit.
#[inline(always)]
#[tactic(auto, unfolding(crate::specs::Classes::digit))]
pub fn is_digit(byte: u8) -> bool
    ensures { result ≡ digit byte }
{
    byte.is_ascii_digit()
}

/// Whether each byte is a letter, `_` or a digit.
static WORDY: [bool; 256] = [
    false, false, false, false, false, false, false, false, false, false, false, false, false,
    false, false, false, false, false, false, false, false, false, false, false, false, false,
    false, false, false, false, false, false, false, false, false, false, false, false, false,
    false, false, false, false, false, false, false, false, false, true, true, true, true, true,
    true, true, true, true, true, false, false, false, false, false, false, false, true, true,
    true, true, true, true, true, true, true, true, true, true, true, true, true, true, true, true,
    true, true, true, true, true, true, true, true, false, false, false, false, true, false, true,
    true, true, true, true, true, true, true, true, true, true, true, true, true, true, true, true,
    true, true, true, true, true, true, true, true, true, false, false, false, false, false, false,
    false, false, false, false, false, false, false, false, false, false, false, false, false,
    false, false, false, false, false, false, false, false, false, false, false, false, false,
    false, false, false, false, false, false, false, false, false, false, false, false, false,
    false, false, false, false, false, false, false, false, false, false, false, false, false,
    false, false, false, false, false, false, false, false, false, false, false, false, false,
    false, false, false, false, false, false, false, false, false, false, false, false, false,
    false, false, false, false, false, false, false, false, false, false, false, false, false,
    false, false, false, false, false, false, false, false, false, false, false, false, false,
    false, false, false, false, false, false, false, false, false, false, false, false, false,
    false, false, false, false, false, false, false, false, false, false,
];

/// Whether a byte goes on a word, by a table, since most bytes of a text are asked.
#[inline(always)]
#[tactic(auto, using(crate::proofs::Table::byte_wordy))]
pub fn is_wordy(byte: u8) -> bool
    ensures { result ≡ wordy byte }
{
    WORDY[usize::from(byte)]
}
