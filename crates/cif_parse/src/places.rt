//! Where a source is told to be wrong: the first token with which those before it can't be gone on, where a reader that goes
//! on finds it out only later. No clause speaks of these places.

ghost use Rattle.std.specs.Prelude.{◌≡◌};
ghost use Rattle.cif_parse_expr.specs.declared.error.ReadError.TheVariants.{Memory as no_memory};

use cif_lex::{Token, TokenKind, Word};
use cif_parse_expr::{ReadError, starts};

/// What an automaton has so far, of what it may have once.
#[derive(Clone, Copy)]
struct Seen {
    alphabet: bool,
    monitor: bool,
    /// A location with a name.
    named: bool,
    /// A location without one.
    unnamed: bool,
}

impl Seen {
    fn nothing() -> Seen {
        Seen {
            alphabet: false,
            monitor: false,
            named: false,
            unnamed: false,
        }
    }

    /// Whether a token can't stand here; `before` is whether `location` is the token before it.
    fn rejects(&self, before: bool, kind: TokenKind) -> bool {
        match kind {
            TokenKind::Reserved(Word::Alphabet) => self.alphabet,
            TokenKind::Reserved(Word::Monitor) => self.monitor,
            TokenKind::Reserved(Word::Location) => self.unnamed,
            TokenKind::Id => false,
            _ => before && self.named,
        }
    }

    /// What there is with one more token.
    fn with(&self, before: bool, kind: TokenKind) -> Seen {
        let is_named = kind == TokenKind::Id;
        Seen {
            alphabet: self.alphabet || kind == TokenKind::Reserved(Word::Alphabet),
            monitor: self.monitor || kind == TokenKind::Reserved(Word::Monitor),
            named: self.named || (before && is_named),
            unnamed: self.unnamed || (before && !is_named),
        }
    }
}

/// How many tokens of an automaton's body are left at a second `alphabet` or `monitor`, or at a location without a name beside
/// others; so many as given where none comes before.
fn left_at_misplaced(tokens: &[Token], left: usize) -> usize {
    let read = tokens.len().saturating_sub(left);
    let mut seen = Seen::nothing();
    let mut before = false;
    for (place, token) in tokens.iter().take(read).enumerate() {
        if seen.rejects(before, token.kind) {
            return tokens.len().saturating_sub(place);
        }
        seen = seen.with(before, token.kind);
        before = token.kind == TokenKind::Reserved(Word::Location);
    }
    left
}

/// Why the body of an automaton, which is these tokens, is not read.
pub fn told_in_automaton(tokens: &[Token], error: ReadError) -> ReadError
    ensures { error ≡ no_memory → result ≡ no_memory }
{
    match error {
        ReadError::NotRead(left) => ReadError::NotRead(left_at_misplaced(tokens, left)),
        ReadError::TooDeep => ReadError::TooDeep,
        ReadError::Memory => ReadError::Memory,
    }
}

/// How many tokens are left at that after `group` and a name, or after `group` alone.
fn left_after_group(tokens: &[Token]) -> usize {
    match tokens {
        [_, rest @ ..] if starts(rest, &[TokenKind::Id]) => rest.len().saturating_sub(1),
        [_, rest @ ..] => rest.len(),
        [] => 0,
    }
}

/// Why there are no invariants here, where there is no component either.
pub fn told_at_item(tokens: &[Token], error: ReadError) -> ReadError
    ensures { error ≡ no_memory → result ≡ no_memory }
{
    match error {
        ReadError::NotRead(_) if starts(tokens, &[TokenKind::Reserved(Word::Group)]) => {
            ReadError::NotRead(left_after_group(tokens))
        }
        error => error,
    }
}
