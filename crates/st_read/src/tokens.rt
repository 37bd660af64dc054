//! Tokens one by one.

ghost use Rattle.std.specs.Prelude.{◌≡◌, ◌↔◌, IsTrue, [], ◌∷◌, length, All};
ghost use Rattle.grammar.specs.Lang as lang;
ghost use Rattle.grammar.specs.Reader as reader;
ghost use Rattle.st_ast.specs.Grammar as grammar;
ghost use Rattle.st_read.specs.Marks.{IsMark, tokens_of};
ghost use Rattle.st_read.specs.Gives.{Gives};
ghost use Rattle.st_read.specs.Reading as reading;

use crate::error::Stop;
use crate::marks::{Mark, Token};
use st_ast::TokenKind;
use std::marker::Model;

/// The tokens from a place in a text on.
#[derive(Drop)]
pub struct Tokens<'a> {
    text: &'a [u8],
    marks: &'a [Mark],
}

impl<'a> Model for Tokens<'a> {
    ghost use Rattle.std.specs.Prelude.{List, All};
    ghost use Rattle.st_ast.specs.Tokens as tokens;
    ghost use Rattle.st_read.specs.Marks.{IsMark, tokens_of};

    ghost Value = { List tokens.Token };

    ghost view = { λ t. tokens_of t.text.now t.marks.now };

    ghost invariant = { λ t. All (IsMark t.text.now) t.marks.now };
}

/// What is read from the front, and what is left.
pub type Read<'a, T> = Result<(T, Tokens<'a>), Stop>;

impl<'a> Tokens<'a> {
    /// The tokens at these places of a text.
    pub fn of(text: &'a [u8], marks: &'a [Mark]) -> Tokens<'a>
        requires { All (IsMark text.now) marks.now }
        ensures { result ≡ tokens_of text.now marks.now }
    {
        Tokens { text, marks }
    }

    /// How many tokens there are.
    #[tactic(auto, using(crate::proofs::Marked::tokens_number))]
    pub fn len(&self) -> usize
        ensures { result ≡ length self.now }
    {
        self.marks.len()
    }

    #[tactic(auto, using(crate::proofs::Marked::tokens_end))]
    pub fn is_empty(&self) -> bool
        ensures { IsTrue result ↔ self.now ≡ [] }
    {
        self.marks.is_empty()
    }

    /// The kind of the next token.
    #[tactic(auto, using(crate::proofs::Marked::marked_kind))]
    pub fn kind(&self) -> Option<TokenKind>
        ensures { result ≡ reading.next_kind self.now }
    {
        match self.marks {
            [] => None,
            [next, _rest @ ..] => Some(next.kind),
        }
    }

    /// How many bytes there are from the next token on.
    pub fn left(&self) -> usize {
        match self.marks {
            [] => 0,
            [next, _rest @ ..] => self.text.len().saturating_sub(next.at as usize),
        }
    }
}

/// The number of a kind.
fn code(kind: TokenKind) -> u8
    ensures { result ≡ grammar.code kind }
{
    kind as u8
}

/// Whether a kind is among these.
fn has(among: &[TokenKind], kind: TokenKind) -> bool
    ensures { result ≡ lang.has (reading.codes_of among.now) (grammar.code kind) }
{
    for one in among {
        if code(*one) == code(kind) {
            return true;
        }
    }
    false
}

/// Whether the next token is of one of these kinds.
#[tactic(auto, using(crate::proofs::Marked::marked_starts))]
pub fn starts(tokens: &Tokens<'_>, among: &[TokenKind]) -> bool
    ensures { result ≡ reader.starts grammar.sort (reading.codes_of among.now) tokens.now }
{
    match tokens.marks {
        [] => false,
        [next, _rest @ ..] => has(among, next.kind),
    }
}

/// A token of one of these kinds.
pub fn one_of<'a>(tokens: Tokens<'a>, among: &[TokenKind]) -> Read<'a, Token<'a>>
    ensures { Gives (λ x. (x.0, x.1)) result (reader.one_at grammar.sort (reading.codes_of among.now) tokens.entry) }
{
    let left = tokens.left();
    let Tokens { text, marks } = tokens;
    match marks {
        [next, rest @ ..] if has(among, next.kind) => {
            Ok((Token::of(text, *next), Tokens::of(text, rest)))
        }
        _ => Err(Stop::NotTaken(left)),
    }
}

/// A token of this kind.
pub fn word(tokens: Tokens<'_>, kind: TokenKind) -> Read<'_, Token<'_>>
    ensures { Gives (λ x. (x.0, x.1)) result (reader.one_at grammar.sort (reading.codes_of (kind ∷ [])) tokens.entry) }
{
    one_of(tokens, &[kind])
}
