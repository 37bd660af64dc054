//! A text as one program.

ghost use Rattle.std.specs.Prelude.{◌≡◌, ◌≤◌, true, length, All, IfOk, IfErr, MatchResult};
ghost use Rattle.st_ast.specs.Tree as tree;
ghost use Rattle.st_ast.specs.Spelled.{is_spelled};
ghost use Rattle.st_ast.specs.View.{view};
ghost use Rattle.st_ast.specs.ReadsAs.{Derives};
ghost use Rattle.st_read.specs.Marks.{IsMark, tokens_of};
ghost use Rattle.st_read.specs.PartsOf.{view_parts};
ghost use Rattle.st_read.specs.Reading as reading;
ghost use Rattle.st_read.specs.Refusals.{RefusalDue};
ghost use Rattle.st_read.specs.Told.{Tells};
ghost use Rattle.st_read.specs.declared.error.StErr.TheVariants.{Memory as no_memory};

use crate::error::{StErr, Stop};
use crate::lexing::token_marks;
use crate::marks::Mark;
use crate::program::{Parts, derived};
use crate::tokens::Tokens;
use cif_base::Items;
use st_ast::Program;
use std::alloc::Global;

/// The byte at which so many are left of a text.
fn place(text: &[u8], left: usize) -> u32
    requires { length text.now ≤ 16777216 }
    ensures { result ≤ length text.now }
{
    text.len().saturating_sub(left) as u32
}

/// The parts of the program that the tokens at these places of a text derive.
fn parsed(alloc: Global, text: &[u8], marks: &Items<Mark>) -> Result<Parts, StErr>
    requires short { length text.now ≤ 16777216 }
    requires marks { All (IsMark text.now) marks.now }
    ensures { Tells (length text.now) (λ p. view_parts p) result (reading.program_of (tokens_of text.now marks.now)) }
{
    match derived(alloc, Tokens::of(text, marks.as_slice())) {
        Ok(parts) => Ok(parts),
        Err(Stop::NoMemory) => Err(StErr::Memory),
        Err(Stop::NotTaken(left)) => Err(StErr::StNotRead {
            at: place(text, left),
        }),
    }
}

/// The program with these parts, which have a spelling.
fn built(parts: Parts) -> Program
    requires { is_spelled (view_parts parts) ≡ true }
    ensures { view result ≡ view_parts parts }
{
    let Parts { name, vars, body } = parts;
    Program { name, vars, body }
}

/// Reads a text of at most 16 MiB as one program (IEC 61131-3, "Structured Text"), without any check of its names and
/// types.
pub fn read(alloc: Global, text: &[u8]) -> Result<Program, StErr>
    requires { length text.now ≤ 16777216 }
    ensures read { IfOk result (λ p. Derives text.now (view p)) }
    ensures refused { IfErr result (RefusalDue text.now) }
    // A text that derives a program is refused for want of memory alone.
    ensures complete { (p : tree.Program) → Derives text.now p
        → MatchResult result (λ q. view q ≡ p) (λ e. e ≡ no_memory) }
{
    let marks = token_marks(alloc, text)?;
    let parts = parsed(alloc, text, &marks)?;
    Ok(built(parts))
}
