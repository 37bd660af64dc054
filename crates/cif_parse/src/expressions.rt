//! Expressions that may be left out.

ghost use Rattle.grammar.specs.Reader as reader;
ghost use Rattle.cif_parse_expr.specs.Gives.{Gives};
ghost use Rattle.cif_parse_expr.specs.TokenKinds as kinds;
ghost use Rattle.cif_parse.specs.Reading as reading;

use cif_lex::{Mark, Token, TokenKind, Word};
use cif_parse_expr::{Part, Read, optional};
use std::alloc::Global;

/// A part that begins as an expression does, where the next token begins one.
pub fn perhaps<'a, P: Part>(
    part: &P,
    alloc: Global,
    text: &[u8],
    tokens: &'a [Token],
) -> Read<'a, Option<P::Tree>>
    ensures { Gives (λ x. (x.0, x.1.now)) result (reader.optional_at kinds.sort reading.expr_first (P.tree_at part.now text.now) tokens.now) }
{
    optional(
        part,
        alloc,
        text,
        &[
            TokenKind::Sign(Mark::Minus),
            TokenKind::Sign(Mark::Plus),
            TokenKind::Reserved(Word::Not),
            TokenKind::Reserved(Word::True),
            TokenKind::Reserved(Word::False),
            TokenKind::Number,
            TokenKind::Sign(Mark::Dot),
            TokenKind::Id,
            TokenKind::Sign(Mark::Question),
            TokenKind::Sign(Mark::OpenParen),
            TokenKind::Reserved(Word::Abs),
            TokenKind::Reserved(Word::Min),
            TokenKind::Reserved(Word::Max),
            TokenKind::Reserved(Word::If),
        ],
        tokens,
    )
}
