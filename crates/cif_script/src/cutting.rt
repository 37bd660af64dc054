//! The lines of a script, and the parts of a line.

ghost use Rattle.std.specs.Prelude.{◌≡◌, ◌∷◌, ◌==◌};
ghost use Rattle.std.specs.Iterator.{YieldsFirstRef, item_count};
ghost use Rattle.std.specs.Str.Lines.{strip_carriage_return};
ghost use Rattle.cif_sim_model.specs.Script as script;
ghost use Rattle.cif_script.specs.Views.{parts_of_rest};

use std::marker::Model;

/// The lines of a script that are left, each without its line feed and without one carriage return at its end.
#[derive(Drop)]
pub struct ScriptLines<'a> {
    rest: Option<&'a [u8]>,
}

/// The lines of a script. The text behind the last line feed is a line too, which is empty where there is none.
pub fn script_lines(text: &[u8]) -> ScriptLines<'_>
    ensures { result ≡ script.script_lines text.now }
{
    ScriptLines { rest: Some(text) }
}

impl<'a> Model for ScriptLines<'a> {
    ghost use Rattle.std.specs.Prelude.{List, ℕ};
    ghost use Rattle.cif_script.specs.Views.{lines_of_rest};

    ghost Value = { List (List ℕ) };

    ghost view = { λ l. lines_of_rest l.rest };
}

impl<'a> Iterator for ScriptLines<'a> {
    type Item = &'a [u8];

    ghost next_gives = { YieldsFirstRef (λ l. l) };

    ghost remaining = { item_count (λ l. l) };

    fn next(&mut self) -> Option<&'a [u8]> {
        let rest = self.rest?;
        match rest.iter().position(|b| *b == b'\n') {
            Some(feed) => {
                self.rest = Some(&rest[feed + 1..]);
                Some(without_return(&rest[..feed]))
            }
            None => {
                self.rest = None;
                Some(without_return(rest))
            }
        }
    }
}

/// The line without one carriage return at its end.
fn without_return(line: &[u8]) -> &[u8]
    ensures { result.now ≡ strip_carriage_return line.now }
{
    match line {
        [front @ .., b'\r'] => front,
        _ => line,
    }
}

/// The part of a line before its first blank, and the text behind that blank.
pub fn first_part(line: &[u8]) -> (&[u8], Option<&[u8]>)
    ensures { script.parts_of line.now ≡ result.0.now ∷ parts_of_rest result.1 }
{
    match line.iter().position(|b| *b == b' ') {
        Some(blank) => (&line[..blank], Some(&line[blank + 1..])),
        None => (line, None),
    }
}
