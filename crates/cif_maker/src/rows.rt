//! The rows of a made source.

ghost use Rattle.std.specs.Prelude.{◌≡◌, ◌<◌, ◌^◌, ◌%◌, ◌+◌, ◌++◌, flat_map, codes, decimal, string_bytes, IfOk, OnOk};
ghost use Rattle.cif_maker.specs.Draws.{after_draws, draw, numbers_below};
ghost use Rattle.cif_maker.specs.MadeText.{input_name, truth_text, made_rows_text};

use crate::draws::Draws;
use cif_base::Memory;
use std::alloc::Global;

/// The number of rows of a made source.
const ROWS: u32 = 100;

/// The rows file of the made source of that seed and size: a header, and 100 rows of TRUE and FALSE for the inputs in order.
/// The values are drawn by the generator of the source, after the numbers of the source.
pub fn rows_for(alloc: Global, seed: u64, size: u32) -> Result<Vec<u8>, Memory>
    requires { seed < 2 ^ 31 }
    ensures { IfOk result (λ text. text.items ≡ made_rows_text seed size) }
{
    let mut draws = Draws::new(seed);
    draws.skip(2 * u64::from(size));
    let mut text = header(alloc, size)?;
    for row in 0..ROWS {
        put_row(&mut text, &mut draws, row + 1, size)?;
    }
    Ok(text.into_bytes())
}

/// The header with a line feed.
fn header(alloc: Global, size: u32) -> Result<String, Memory>
    ensures { IfOk result (λ text. string_bytes text ≡ codes "scan" ++ flat_map input_name (numbers_below size) ++ codes "\n") }
{
    let mut text = String::new(alloc);
    text.push_str("scan")?;
    for i in 0..size {
        write!(text, ",I{i}_s{i}")?;
    }
    text.push_str("\n")?;
    Ok(text)
}

/// Appends the row of that number, whose values are drawn.
fn put_row(text: &mut String, draws: &mut Draws, number: u32, size: u32) -> Result<(), Memory>
    ensures state { OnOk result (draws.new ≡ after_draws size draws.old) }
    ensures text { OnOk result (string_bytes text.new ≡ string_bytes text.old
        ++ (decimal number ++ flat_map (λ i. truth_text (draw draws.old i % 2)) (numbers_below size) ++ codes "\n")) }
{
    write!(text, "{number}")?;
    for _i in 0..size {
        text.push_str(cell(draws.next()))?;
    }
    text.push_str("\n")?;
    Ok(())
}

/// The cell of a drawn number, behind a comma.
fn cell(drawn: u64) -> &'static str
    ensures { result.now ≡ truth_text (drawn % 2) }
{
    if drawn % 2 == 1 { ",TRUE" } else { ",FALSE" }
}
