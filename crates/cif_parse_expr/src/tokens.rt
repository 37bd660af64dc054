//! Tokens one by one.

ghost use Rattle.std.specs.Prelude.{◌≡◌, ◌≤◌};
ghost use Rattle.grammar.specs.Lang as lang;
ghost use Rattle.grammar.specs.Reader as reader;
ghost use Rattle.cif_parse_expr.specs.Gives.{Gives};
ghost use Rattle.cif_parse_expr.specs.TokenKinds as kinds;
ghost use Rattle.cif_parse_expr.specs.Reading as reading;

use crate::error::ReadError;
use cif_lex::{Mark, Token, TokenKind, Word};

/// What stands at the front of a list of tokens, and the tokens after it.
pub type Read<'a, T> = Result<(T, &'a [Token]), ReadError>;

/// The number of a sign.
fn mark_code(mark: Mark) -> u8
    ensures value { result ≡ kinds.mark_code mark }
    ensures small { result ≤ 24 }
{
    mark as u8
}

/// The number of a reserved word.
fn word_code(word: Word) -> u8
    ensures value { result ≡ kinds.word_code word }
    ensures small { result ≤ 45 }
{
    word as u8
}

/// The number of a kind of token, by which kinds are told apart.
pub fn code(kind: TokenKind) -> u8
    ensures { result ≡ kinds.code kind }
{
    match kind {
        TokenKind::Id => 0,
        TokenKind::Number => 1,
        TokenKind::Sign(mark) => 2 + mark_code(mark),
        TokenKind::Reserved(word) => 27 + word_code(word),
    }
}

/// Whether a kind is among these.
fn has(among: &[TokenKind], kind: TokenKind) -> bool
    ensures { result ≡ lang.has (kinds.codes_of among.now) (kinds.code kind) }
{
    for one in among {
        if code(*one) == code(kind) {
            return true;
        }
    }
    false
}

/// Whether the next token is of one of these kinds.
pub fn starts(tokens: &[Token], among: &[TokenKind]) -> bool
    ensures { result ≡ reader.starts kinds.sort (kinds.codes_of among.now) tokens.now }
{
    match tokens {
        [] => false,
        [token, ..] => has(among, token.kind),
    }
}

/// A token of one of these kinds.
#[tactic(auto, unfolding(grammar::specs::Reader::one_at))]
pub fn any_of<'a>(tokens: &'a [Token], among: &[TokenKind]) -> Read<'a, &'a Token>
    ensures { Gives (λ x. (x.0.now, x.1.now)) result (reading.any_at among.now tokens.now) }
{
    match tokens {
        [token, rest @ ..] if has(among, token.kind) => Ok((token, rest)),
        _ => Err(ReadError::NotRead(tokens.len())),
    }
}

/// A token of this kind.
pub fn kind(tokens: &[Token], kind: TokenKind) -> Read<'_, &Token>
    ensures { Gives (λ x. (x.0.now, x.1.now)) result (reading.kind_at kind tokens.now) }
{
    any_of(tokens, &[kind])
}

/// This reserved word.
pub fn word(tokens: &[Token], word: Word) -> Read<'_, &Token>
    ensures { Gives (λ x. (x.0.now, x.1.now)) result (reading.word_at word tokens.now) }
{
    kind(tokens, TokenKind::Reserved(word))
}

/// This sign.
pub fn sign(tokens: &[Token], mark: Mark) -> Read<'_, &Token>
    ensures { Gives (λ x. (x.0.now, x.1.now)) result (reading.sign_at mark tokens.now) }
{
    kind(tokens, TokenKind::Sign(mark))
}
