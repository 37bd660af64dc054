//! A name: the letter, the number, `_` and the tidied path.

ghost use Rattle.std.specs.Prelude.{◌≡◌, ◌∷◌, [], IfOk};
ghost use Rattle.plc_model.specs.Names.{text_of, name_for};

use crate::tidying::{first_bytes, or_letter, without_last};
use cif_base::{Memory, Text};
use itoa::Buffer;
use plc_model::Letter;
use std::alloc::Global;

/// The name of a variable: the letter, the number in decimal, `_` and the path tidied. For that each run of bytes that aren't
/// ASCII letters or digits becomes one `_`, a first and a last `_` go, the text is cut after 40 bytes, a last `_` goes again,
/// and `x` stands where nothing is left.
pub fn name_of(alloc: Global, letter: Letter, number: u32, path: &[u8]) -> Result<Text, Memory>
    ensures { IfOk result (λ name. name ≡ name_for letter number path.now) }
{
    let kept = first_bytes(alloc, path)?;
    let mut digits = Buffer::new();
    let mut name = Text::new(alloc);
    name.push(byte_of(letter))?;
    name.push_slice(digits.format(number).as_bytes())?;
    name.push(b'_')?;
    name.push_slice(or_letter(without_last(kept.as_slice())))?;
    Ok(name)
}

/// The byte of a letter.
fn byte_of(letter: Letter) -> u8
    ensures { text_of letter ≡ result ∷ [] }
{
    match letter {
        Letter::I => b'I',
        Letter::H => b'H',
        Letter::L => b'L',
        Letter::V => b'V',
        Letter::P => b'P',
        Letter::Q => b'Q',
        Letter::R => b'R',
        Letter::T => b'T',
    }
}
