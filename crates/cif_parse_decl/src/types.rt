//! Types and channels.

ghost use Rattle.std.specs.Prelude.{◌≡◌, IfOk};
ghost use Rattle.cif_ast.specs.declared.declarations.TypeUse.TheVariants as types;
ghost use Rattle.cif_parse_expr.specs.Gives.{Gives};
ghost use Rattle.cif_parse_decl.specs.Reading as reading;

use cif_ast::{Chan, Expr, TypeUse};
use cif_base::{Boxed, Memory};
use cif_lex::{Mark, Token, TokenKind, Word};
use cif_parse_expr::{Read, expr, name, sign, starts, word};
use std::alloc::Global;

/// The bounds of a range, in brackets.
#[tactic(auto, unfolding(crate::specs::Reading::bounds_at))]
fn bounds<'a>(
    alloc: Global,
    text: &[u8],
    tokens: &'a [Token],
) -> Read<'a, (Boxed<Expr>, Boxed<Expr>)>
    ensures { Gives (λ x. (x.0, x.1.now)) result (reading.bounds_at text.now tokens.now) }
{
    let (_open, rest) = sign(tokens, Mark::OpenBracket)?;
    let (low, rest) = expr(alloc, text, rest)?;
    let (_dots, rest) = sign(rest, Mark::Range)?;
    let (high, rest) = expr(alloc, text, rest)?;
    let (_close, rest) = sign(rest, Mark::CloseBracket)?;
    Ok(((low, high), rest))
}

/// The type of the integers between two bounds.
fn range(alloc: Global, low: Boxed<Expr>, high: Boxed<Expr>) -> Result<Boxed<TypeUse>, Memory>
    ensures { IfOk result (λ t. t ≡ types.Range low high) }
{
    let low = low.into_inner();
    let high = high.into_inner();
    Boxed::new(alloc, TypeUse::Range(low, high))
}

/// A type once more, in a box.
pub fn type_again(alloc: Global, ty: &TypeUse) -> Result<Boxed<TypeUse>, Memory>
    ensures { IfOk result (λ t. t ≡ ty.now) }
{
    Boxed::new(alloc, ty.copy(alloc)?)
}

/// A channel once more, in a box.
pub fn channel_again(alloc: Global, chan: &Chan) -> Result<Boxed<Chan>, Memory>
    ensures { IfOk result (λ c. c ≡ chan.now) }
{
    Boxed::new(alloc, chan.copy(alloc)?)
}

/// `int`, with bounds or without.
#[tactic(auto, unfolding(crate::specs::Reading::integer_at))]
fn integer<'a>(alloc: Global, text: &[u8], tokens: &'a [Token]) -> Read<'a, Boxed<TypeUse>>
    ensures { Gives (λ x. (x.0, x.1.now)) result (reading.integer_at text.now tokens.now) }
{
    let (_int, rest) = word(tokens, Word::Int)?;
    if !starts(rest, &[TokenKind::Sign(Mark::OpenBracket)]) {
        return Ok((Boxed::new(alloc, TypeUse::Int)?, rest));
    }
    let ((low, high), rest) = bounds(alloc, text, rest)?;
    Ok((range(alloc, low, high)?, rest))
}

/// A type.
#[tactic(auto, unfolding(crate::specs::Reading::type_at))]
pub fn type_use<'a>(alloc: Global, text: &[u8], tokens: &'a [Token]) -> Read<'a, Boxed<TypeUse>>
    ensures { Gives (λ x. (x.0, x.1.now)) result (reading.type_at text.now tokens.now) }
{
    if starts(tokens, &[TokenKind::Reserved(Word::Bool)]) {
        let (_bool, rest) = word(tokens, Word::Bool)?;
        Ok((Boxed::new(alloc, TypeUse::Bool)?, rest))
    } else if starts(tokens, &[TokenKind::Reserved(Word::Int)]) {
        integer(alloc, text, tokens)
    } else {
        let (name, rest) = name(alloc, text, tokens)?;
        Ok((Boxed::new(alloc, TypeUse::Named(name))?, rest))
    }
}

/// The type of a channel, or `void`.
#[tactic(auto, unfolding(crate::specs::Reading::channel_at))]
pub fn channel<'a>(alloc: Global, text: &[u8], tokens: &'a [Token]) -> Read<'a, Boxed<Chan>>
    ensures { Gives (λ x. (x.0, x.1.now)) result (reading.channel_at text.now tokens.now) }
{
    if starts(
        tokens,
        &[
            TokenKind::Reserved(Word::Bool),
            TokenKind::Reserved(Word::Int),
            TokenKind::Sign(Mark::Dot),
            TokenKind::Id,
        ],
    ) {
        let (ty, rest) = type_use(alloc, text, tokens)?;
        Ok((Boxed::new(alloc, Chan::Of(ty.into_inner()))?, rest))
    } else {
        let (_void, rest) = word(tokens, Word::Void)?;
        Ok((Boxed::new(alloc, Chan::Void)?, rest))
    }
}
