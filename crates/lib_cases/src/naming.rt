//! Cases of the names of a generated program's variables.

use case_text::{Fault, Fields, first_word, number, put_text};
use plc_model::Letter;
use plc_names::name_of;

fn letter_named(word: &str) -> Result<Letter, Fault> {
    match word {
        "I" => Ok(Letter::I),
        "H" => Ok(Letter::H),
        "L" => Ok(Letter::L),
        "V" => Ok(Letter::V),
        "P" => Ok(Letter::P),
        "Q" => Ok(Letter::Q),
        "R" => Ok(Letter::R),
        "T" => Ok(Letter::T),
        _ => Err(Fault::Form("no letter of names")),
    }
}

/// `name LETTER NUMBER | TEXT`: the name of what has that number and that path.
pub fn name_case(fields: &Fields<'_>, page: &mut String) -> Result<(), Fault> {
    let (word, rest) = first_word(fields.written(0));
    let letter = letter_named(word)?;
    let number = number(rest)?;
    let path = fields.bytes_of(fields.written(1))?;
    let name = name_of(fields.alloc, letter, number, path.as_slice())?;
    page.push_str("  ")?;
    put_text(page, name.as_slice())?;
    Ok(page.push('\n')?)
}
