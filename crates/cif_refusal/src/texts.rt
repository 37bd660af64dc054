//! Texts that are put together: a number, a name, and each field's name and value.

ghost use Rattle.std.specs.Prelude.{◌≡◌, map, IfOk};
ghost use Rattle.std.specs.Fmt.{signed_decimal};
ghost use Rattle.cif_refusal.specs.Texts as texts;

use cif_base::{Memory, Text, put_int};
use std::alloc::Global;

/// The texts one after the other.
pub fn joined(alloc: Global, parts: &[&[u8]]) -> Result<Text, Memory>
    ensures { IfOk result (λ text. text ≡ texts.joined (map (λ p. p.now) parts.now)) }
{
    let mut text = Text::new(alloc);
    for part in parts {
        text.push_slice(part)?;
    }
    Ok(text)
}

/// A number as decimal text.
pub fn decimal_text(alloc: Global, number: i64) -> Result<Text, Memory>
    ensures { IfOk result (λ text. text ≡ signed_decimal number) }
{
    let mut text = Vec::new(alloc);
    put_int(&mut text, number)?;
    Ok(Text::from_vec(text))
}

/// A refusal with one field that is a number.
pub fn with_number(alloc: Global, head: &[u8], number: u32) -> Result<Text, Memory>
    ensures { IfOk result (λ text. text ≡ texts.with_number head.now number) }
{
    let number = decimal_text(alloc, number as i64)?;
    joined(alloc, &[head, number.as_slice()])
}

/// A refusal with two such fields.
pub fn with_numbers(
    alloc: Global,
    head: &[u8],
    number: u32,
    between: &[u8],
    other: u32,
) -> Result<Text, Memory>
    ensures { IfOk result (λ text. text ≡ texts.with_numbers head.now number between.now other) }
{
    let number = decimal_text(alloc, number as i64)?;
    let other = decimal_text(alloc, other as i64)?;
    joined(alloc, &[head, number.as_slice(), between, other.as_slice()])
}
