//! A text that is being printed, mark by mark.

ghost use Rattle.std.specs.Prelude.{◌≡◌, true, ◌++◌, ◌||◌, [], ◌∷◌, List, codes, OnOk};
ghost use Rattle.std.specs.Fmt.{signed_decimal};
ghost use Rattle.grammar.specs.Pieces.{same};
ghost use Rattle.st_print.specs.Layout.{Mark, line, word, sign, dash, times, call, gap, closes, opens, number_marks, text_of};

use cif_base::{Memory, put_int};
use std::alloc::Global;

/// A text that is being printed. `fresh`: no blank is due before what comes next.
#[derive(Drop)]
pub struct Printer {
    pub bytes: Vec<u8>,
    pub fresh: bool,
}

impl Printer {
    ghost use Rattle.st_print.specs.Printing.{so_far};

    /// A printer at the start of a text.
    #[tactic(auto, unfolding(crate::specs::Printing::so_far))]
    pub fn new(alloc: Global) -> Printer
        ensures { (ms : List Mark) → so_far result ms ≡ text_of true ms }
    {
        Printer {
            bytes: Vec::new(alloc),
            fresh: true,
        }
    }

    /// The printed text.
    #[tactic(auto, unfolding(crate::specs::Printing::so_far))]
    pub fn into_bytes(self) -> Vec<u8>
        ensures { result.items ≡ so_far self [] }
    {
        let Printer { bytes, fresh: _ } = self;
        bytes
    }

    /// Begins a line, indented by two blanks for each nesting.
    pub fn line(&mut self, depth: usize) -> Result<(), Memory>
        ensures { OnOk result ((ms : List Mark) →
            so_far self.old (line depth ∷ ms) ≡ so_far self.new ms) }
    {
        self.bytes.push(b'\n')?;
        for _ in 0..depth {
            self.bytes.extend_from_slice(b"  ")?;
        }
        self.fresh = true;
        Ok(())
    }

    /// Prints a keyword or a name.
    pub fn word(&mut self, text: &[u8]) -> Result<(), Memory>
        ensures { OnOk result ((ms : List Mark) →
            so_far self.old (word text.now ∷ ms) ≡ so_far self.new ms) }
    {
        self.put(text, self.fresh)?;
        self.fresh = false;
        Ok(())
    }

    /// Prints a sign or an operator of signs.
    pub fn sign(&mut self, text: &[u8]) -> Result<(), Memory>
        ensures { OnOk result ((ms : List Mark) →
            so_far self.old (sign text.now ∷ ms) ≡ so_far self.new ms) }
    {
        self.put(text, self.fresh || is_closing(text))?;
        self.fresh = is_opening(text);
        Ok(())
    }

    /// Prints a unary minus, to which its operand is joined.
    pub fn dash(&mut self) -> Result<(), Memory>
        ensures { OnOk result ((ms : List Mark) →
            so_far self.old (dash ∷ ms) ≡ so_far self.new ms) }
    {
        self.put(b"-", self.fresh)?;
        self.fresh = true;
        Ok(())
    }

    /// Prints `*` with a blank before it: after `(` it would begin a comment.
    pub fn times(&mut self) -> Result<(), Memory>
        ensures { OnOk result ((ms : List Mark) →
            so_far self.old (times ∷ ms) ≡ so_far self.new ms) }
    {
        self.put(b"*", false)?;
        self.fresh = false;
        Ok(())
    }

    /// Prints the parenthesis that is joined to a function's name.
    pub fn call(&mut self) -> Result<(), Memory>
        ensures { OnOk result ((ms : List Mark) →
            so_far self.old (call ∷ ms) ≡ so_far self.new ms) }
    {
        self.put(b"(", true)?;
        self.fresh = true;
        Ok(())
    }

    /// Prints a whole number, with a sign before a negative one.
    pub fn number(&mut self, value: i64) -> Result<(), Memory>
        ensures { OnOk result ((ms : List Mark) →
            so_far self.old (number_marks value ms) ≡ so_far self.new ms) }
    {
        self.gap(self.fresh)?;
        put_int(&mut self.bytes, value)?;
        self.fresh = false;
        Ok(())
    }

    /// Prints a token, with a blank before it unless it is joined to what stands there.
    fn put(&mut self, text: &[u8], is_joined: bool) -> Result<(), Memory>
        ensures bytes { OnOk result (self.new.bytes.items ≡ self.old.bytes.items ++ (gap is_joined ++ text.now)) }
        ensures fresh { self.new.fresh ≡ self.old.fresh }
    {
        self.gap(is_joined)?;
        self.bytes.extend_from_slice(text)?;
        Ok(())
    }

    /// Prints a blank, unless the next token is joined to what stands there.
    fn gap(&mut self, is_joined: bool) -> Result<(), Memory>
        ensures bytes { OnOk result (self.new.bytes.items ≡ self.old.bytes.items ++ gap is_joined) }
        ensures fresh { self.new.fresh ≡ self.old.fresh }
    {
        if !is_joined {
            self.bytes.push(b' ')?;
        }
        Ok(())
    }
}

/// Whether no blank stands before a sign.
fn is_closing(text: &[u8]) -> bool
    ensures { result ≡ closes text.now }
{
    is_same(text, b";") || is_same(text, b",") || is_same(text, b":") || is_same(text, b")")
}

/// Whether no blank stands after a sign.
fn is_opening(text: &[u8]) -> bool
    ensures { result ≡ opens text.now }
{
    is_same(text, b"(")
}

/// Whether two texts are the same.
fn is_same(text: &[u8], other: &[u8]) -> bool
    ensures { result ≡ same text.now other.now }
{
    text == other
}
