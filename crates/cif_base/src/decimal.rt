//! Whole numbers as decimal text.

ghost use Rattle.std.specs.Prelude.{◌≡◌, ◌++◌, ℤ, Some, FitsSigned, IfSome, OnOk, OnErr};
ghost use Rattle.std.specs.Int.{w64};
ghost use Rattle.std.specs.Fmt.{signed_decimal};

use crate::Memory;
use itoa::Buffer;

/// Appends the decimal text of a number: `-` before a negative one, and no other sign or leading zero.
pub fn put_int(into: &mut Vec<u8>, value: i64) -> Result<(), Memory>
    ensures ok { OnOk result (into.new.items ≡ into.old.items ++ signed_decimal value) }
    ensures err { OnErr result (into.new.items ≡ into.old.items) }
{
    let mut buffer = Buffer::new();
    into.extend_from_slice(buffer.format(value).as_bytes())?;
    Ok(())
}

/// The whole number of a canonical decimal of 64 bits: `0`, or a nonzero digit and more digits, with `-` allowed before it;
/// `None` for any other text. It takes no memory.
pub fn read_int(text: &[u8]) -> Option<i64>
    ensures some { IfSome result (λ z. text.now ≡ signed_decimal z) }
    ensures read { (z : ℤ) → FitsSigned w64 z → text.now ≡ signed_decimal z → result ≡ Some z }
{
    let Ok(word) = str::from_utf8(text) else {
        return None;
    };
    let Ok(value) = word.parse::<i64>() else {
        return None;
    };
    let mut buffer = Buffer::new();
    if buffer.format(value) == word {
        Some(value)
    } else {
        None
    }
}
