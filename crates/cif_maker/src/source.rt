//! The text of a made source.

ghost use Rattle.std.specs.Prelude.{◌≡◌, ◌<◌, ◌^◌, [], ◌++◌, nat_lt, ◌&&◌, if◌then◌else◌, string_bytes, IfOk, OnOk};
ghost use Rattle.cif_maker.specs.Draws.{next_of};
ghost use Rattle.cif_maker.specs.MadeText.{concatenated, plant_pieces, need_pieces, made_text};

use crate::draws::Draws;
use cif_base::Memory;
use std::alloc::Global;

/// The source of a seed and a size, a line feed after each line. For each number `i` below `size` it has a plant `Ai` with the
/// events `ui` and `ci`, the input `si` and a variable of 0 to `m`; and, where that is drawn and there are two plants, the
/// requirement that `ci` needs the next plant idle, the first after the last. The two numbers of `i`, `m` (1 to 9) and whether
/// it has the requirement, are drawn from the seed by a linear congruential generator.
pub fn make(alloc: Global, seed: u64, size: u32) -> Result<Vec<u8>, Memory>
    requires { seed < 2 ^ 31 }
    ensures { IfOk result (λ text. text.items ≡ made_text seed size) }
{
    let mut draws = Draws::new(seed);
    let mut text = String::new(alloc);
    for number in 0..size {
        let most = 1 + draws.next() % 9;
        let is_drawn = draws.next() % 2 == 1;
        put_plant(&mut text, number, most)?;
        put_need(&mut text, number, size, is_drawn)?;
    }
    Ok(text.into_bytes())
}

/// Appends plant `i`, whose variable goes up to `most`.
fn put_plant(text: &mut String, i: u32, most: u64) -> Result<(), Memory>
    ensures { OnOk result (string_bytes text.new ≡ string_bytes text.old ++ concatenated (plant_pieces i most)) }
{
    write!(
        text,
        "uncontrollable u{i}; controllable c{i}; input bool s{i}; plant A{i}: disc int[0..{most}] n = 0; location "
    )?;
    write!(
        text,
        "idle: initial; marked; edge u{i} when s{i} and n < {most} do n := n + 1 goto busy; location "
    )?;
    write!(text, "busy: edge c{i} goto idle; end\n")?;
    Ok(())
}

/// Appends the requirement that plant `i` needs the next one idle, where that is drawn and there are two plants.
fn put_need(text: &mut String, i: u32, size: u32, is_drawn: bool) -> Result<(), Memory>
    requires { i < size }
    ensures { OnOk result (string_bytes text.new ≡ string_bytes text.old
        ++ (if is_drawn && nat_lt 1 size then concatenated (need_pieces i (next_of size i)) else [])) }
{
    if !is_drawn || size <= 1 {
        return Ok(());
    }
    let next = (i + 1) % size;
    write!(text, "requirement c{i} needs A{next}.idle;\n")?;
    Ok(())
}
