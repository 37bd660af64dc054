//! What comes next, where one token does not tell.

ghost use Rattle.std.specs.Prelude.{◌≡◌};
ghost use Rattle.grammar.specs.Reader as reader;
ghost use Rattle.cif_parse_expr.specs.TokenKinds as kinds;
ghost use Rattle.cif_parse_decl.specs.Reading as reading;

use cif_lex::{Mark, Token, TokenKind, Word};
use cif_parse_expr::starts;

/// Whether a declaration begins here that doesn't begin with a kind.
pub fn begins_declaration(tokens: &[Token]) -> bool
    ensures { result ≡ reader.starts kinds.sort reading.plain_first tokens.now }
{
    starts(
        tokens,
        &[
            TokenKind::Reserved(Word::Type),
            TokenKind::Reserved(Word::Enum),
            TokenKind::Reserved(Word::Event),
            TokenKind::Reserved(Word::Controllable),
            TokenKind::Reserved(Word::Uncontrollable),
            TokenKind::Reserved(Word::Const),
            TokenKind::Reserved(Word::Alg),
            TokenKind::Reserved(Word::Input),
            TokenKind::Reserved(Word::Equation),
            TokenKind::Reserved(Word::Invariant),
            TokenKind::Reserved(Word::Marked),
        ],
    )
}

/// Whether an identifier comes, and after it neither an identifier nor a dot, so that it is no type.
#[tactic(auto, unfolding(crate::specs::Reading::is_bare))]
pub fn is_bare(tokens: &[Token]) -> bool
    ensures { result ≡ reading.is_bare tokens.now }
{
    match tokens {
        [] => false,
        [_, rest @ ..] => {
            starts(tokens, &[TokenKind::Id])
                && !starts(rest, &[TokenKind::Id, TokenKind::Sign(Mark::Dot)])
        }
    }
}

/// Whether an identifier and a colon come.
#[tactic(auto, unfolding(crate::specs::Reading::is_labelled))]
pub fn is_labelled(tokens: &[Token]) -> bool
    ensures { result ≡ reading.is_labelled tokens.now }
{
    match tokens {
        [] => false,
        [_, rest @ ..] => {
            starts(tokens, &[TokenKind::Id]) && starts(rest, &[TokenKind::Sign(Mark::Colon)])
        }
    }
}

/// Whether a word of components begins one here, where it may also be a kind before invariants: it is `automaton`, or
/// `automaton`, `def`, or an identifier and a colon come after it.
#[tactic(auto, unfolding(crate::specs::Reading::is_component))]
pub fn is_component(tokens: &[Token]) -> bool
    ensures { result ≡ reading.is_component tokens.now }
{
    match tokens {
        [] => false,
        [_, rest @ ..] => {
            starts(tokens, &[TokenKind::Reserved(Word::Automaton)])
                || (starts(
                    rest,
                    &[
                        TokenKind::Reserved(Word::Automaton),
                        TokenKind::Reserved(Word::Def),
                    ],
                ) || is_labelled(rest))
        }
    }
}
