//! What a token of a text is spelled.

ghost use Rattle.std.specs.Prelude.{◌≡◌, take, drop};
ghost use Rattle.cif_parse_expr.specs.Spelling as spelling;
ghost use Rattle.cif_lex.specs.Tokens as tokens;

use cif_lex::{Token, small_number};

/// The bytes from a place on.
#[tactic(auto, using(std::proofs::lemmas::List::drop_all))]
fn from_on(text: &[u8], from: usize) -> &[u8]
    ensures { result.now ≡ drop from text.now }
{
    if from < text.len() {
        &text[from..]
    } else {
        &[]
    }
}

/// So many bytes at the front.
#[tactic(auto, using(std::proofs::lemmas::List::take_all))]
fn front(text: &[u8], size: usize) -> &[u8]
    ensures { result.now ≡ take size text.now }
{
    if size < text.len() {
        &text[..size]
    } else {
        text
    }
}

/// The bytes of a token, those that the text has.
#[tactic(auto, unfolding(crate::specs::Spelling::bytes_of))]
fn bytes_of<'a>(text: &'a [u8], token: &Token) -> &'a [u8]
    ensures { result.now ≡ spelling.bytes_of text.now token.now }
{
    let span = token.span;
    front(
        from_on(text, span.from as usize),
        span.to.saturating_sub(span.from) as usize,
    )
}

fn without_dollar(bytes: &[u8]) -> &[u8]
    ensures { result.now ≡ spelling.without_dollar bytes.now }
{
    match bytes {
        [b'$', rest @ ..] => rest,
        _ => bytes,
    }
}

/// An identifier without the `$` that may stand before it.
#[tactic(auto, unfolding(crate::specs::Spelling::spelling))]
pub fn spelling<'a>(text: &'a [u8], token: &Token) -> &'a [u8]
    ensures { result.now ≡ spelling.spelling text.now token.now }
{
    without_dollar(bytes_of(text, token))
}

/// The number that a token stands for; `None` where it is too great.
pub fn value(text: &[u8], token: &Token) -> Option<u32>
    ensures { result ≡ tokens.small_number (spelling.bytes_of text.now token.now) }
{
    small_number(bytes_of(text, token))
}
