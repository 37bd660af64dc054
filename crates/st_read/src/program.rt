//! A list of tokens as the parts of one program.

ghost use Rattle.std.specs.Prelude.{◌≡◌};
ghost use Rattle.st_read.specs.Gives.{Gives};
ghost use Rattle.st_read.specs.PartsOf.{view_parts};
ghost use Rattle.st_read.specs.Reading as reading;

use crate::declarations::variables;
use crate::error::Stop;
use crate::names::identifier;
use crate::statements::statements;
use crate::tokens::{Read, Tokens, word};
use cif_base::{Items, Text};
use st_ast::{StVar, Stmt, TokenKind};
use std::alloc::Global;

/// What a program is made of. That it has a spelling is known where its text is.
#[derive(Drop)]
pub struct Parts {
    pub name: Text,
    pub vars: Items<StVar>,
    pub body: Items<Stmt>,
}

#[tactic(auto, unfolding(crate::specs::Reading::program_at))]
fn program(alloc: Global, tokens: Tokens<'_>) -> Read<'_, Parts>
    ensures { Gives (λ x. (view_parts x.0, x.1)) result (reading.program_at tokens.entry) }
{
    let (_program, rest) = word(tokens, TokenKind::Program)?;
    let (name, rest) = identifier(alloc, rest)?;
    let (vars, rest) = variables(alloc, rest)?;
    let (body, rest) = statements(alloc, rest)?;
    let (_end, rest) = word(rest, TokenKind::EndProgram)?;
    Ok((Parts { name, vars, body }, rest))
}

/// The parts of the program that the tokens derive, all of them.
#[tactic(auto, unfolding(crate::specs::Reading::program_of))]
pub fn derived(alloc: Global, tokens: Tokens<'_>) -> Result<Parts, Stop>
    ensures { Gives (λ p. view_parts p) result (reading.program_of tokens.entry) }
{
    let (program, rest) = program(alloc, tokens)?;
    if rest.is_empty() {
        Ok(program)
    } else {
        Err(Stop::NotTaken(rest.left()))
    }
}
