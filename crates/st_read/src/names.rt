//! Names and numbers.

ghost use Rattle.std.specs.Prelude.{◌≤◌, pos, IfOk};
ghost use Rattle.st_ast.specs.Tokens.{greatest};
ghost use Rattle.st_read.specs.Gives.{Gives};
ghost use Rattle.st_read.specs.Reading as reading;

use crate::tokens::{Read, Tokens, word};
use cif_base::Text;
use st_ast::TokenKind;
use std::alloc::Global;

#[tactic(auto, unfolding(crate::specs::Reading::identifier_at))]
pub fn identifier(alloc: Global, tokens: Tokens<'_>) -> Read<'_, Text>
    ensures { Gives (λ x. (x.0, x.1)) result (reading.identifier_at tokens.entry) }
{
    let (token, rest) = word(tokens, TokenKind::Name)?;
    Ok((Text::from_slice(alloc, token.name())?, rest))
}

/// A number without a sign.
#[tactic(auto, using(crate::proofs::Literals::literal_is), unfolding(crate::specs::Reading::natural_at))]
pub fn natural(tokens: Tokens<'_>) -> Read<'_, u64>
    ensures read { Gives (λ x. (pos x.0, x.1)) result (reading.natural_at tokens.entry) }
    ensures small { IfOk result (λ x. x.0 ≤ greatest) }
{
    let (token, rest) = word(tokens, TokenKind::Literal)?;
    Ok((token.value(), rest))
}
