//! A list of tokens as one specification.

ghost use Rattle.std.specs.Prelude.{◌≡◌, ◌+◌, ◌<◌, ◌≤◌, ◌^◌, length, IfOk, IfErr, MatchResult};
ghost use Rattle.cif_lex.specs.Tokens.{Tokens};
ghost use Rattle.cif_ast.specs.Countable.{IsCountable};
ghost use Rattle.cif_ast.specs.Shallow.{IsShallow};
ghost use Rattle.cif_ast.specs.SmallNumbers.{HasSmallNumbers};
ghost use Rattle.cif_ast.specs.declared.components.Spec.{Spec};
ghost use Rattle.cif_parse_expr.specs.Gives.{Gives};
ghost use Rattle.cif_parse.specs.Grammar.{Reads, ParseRefusalDue};
ghost use Rattle.cif_parse.specs.Reading as reading;
ghost use Rattle.cif_parse.specs.declared.error.ParseErr.TheVariants.{Memory as no_memory};

use crate::components::items;
use crate::error::ParseErr;
use cif_ast::Spec;
use cif_lex::Token;
use cif_parse_expr::ReadError;
use std::alloc::Global;

/// The specification that all the tokens are.
#[tactic(auto, unfolding(crate::specs::Reading::specification_at))]
fn specification(alloc: Global, text: &[u8], tokens: &[Token]) -> Result<Spec, ReadError>
    ensures { Gives (λ s. s) result (reading.specification_at text.now tokens.now) }
{
    let (items, rest) = items(alloc, text, tokens)?;
    if rest.is_empty() {
        Ok(Spec { items })
    } else {
        Err(ReadError::NotRead(rest.len()))
    }
}

/// Where the token begins that has so many from it on, or the end of the text.
fn place(text: &[u8], tokens: &[Token], left: usize) -> u32
    ensures { result ≤ length text.now }
{
    let end = u32::try_from(text.len()).unwrap_or(u32::MAX);
    match tokens.get(tokens.len().saturating_sub(left)) {
        Some(token) => token.span.from.min(end),
        None => end,
    }
}

/// The tree of a text, by its tokens (CIF 3 language reference). Where it has none, the place told is that of the first token
/// with which the tokens before it can't be gone on, the end of the text where all can, or the place of what is too deep.
#[tactic(auto, using(crate::proofs::Whole::tree_read, crate::proofs::Whole::none_read, crate::proofs::Whole::other_read))]
pub fn parse(alloc: Global, text: &[u8], tokens: &[Token]) -> Result<Spec, ParseErr>
    requires { Tokens text.now tokens.now }
    ensures tree { IfOk result (Reads text.now) }
    ensures countable { length text.now + 1 < 2 ^ 31 → IfOk result IsCountable }
    ensures small { length text.now + 1 < 2 ^ 31 → IfOk result HasSmallNumbers }
    ensures shallow { IfOk result IsShallow }
    ensures refused { IfErr result (ParseRefusalDue text.now) }
    // A text that has a tree is refused for want of memory alone.
    ensures complete { (spec : Spec) → Reads text.now spec
        → MatchResult result (λ tree. tree ≡ spec) (λ e. e ≡ no_memory) }
{
    match specification(alloc, text, tokens) {
        Ok(spec) => Ok(spec),
        Err(ReadError::Memory) => Err(ParseErr::Memory),
        Err(ReadError::NotRead(left)) => Err(ParseErr::NotRead {
            at: place(text, tokens, left),
        }),
        Err(ReadError::TooDeep) => Err(ParseErr::NotRead {
            at: place(text, tokens, tokens.len()),
        }),
    }
}
