//! A token as the place where it begins in its text.

ghost use Rattle.std.specs.Prelude.{◌≡◌, ◌≤◌, drop};
ghost use Rattle.st_ast.specs.Tokens.{number_of, greatest};
ghost use Rattle.st_read.specs.Marks.{IsMark, token_of};

use crate::words::value_of;
use grammar::{split_number, split_word};
use st_ast::TokenKind;
use std::marker::Model;

/// Where a token begins, counted in bytes, its kind, and for a name how many bytes it has, or `u16::MAX` for a name of so many or more.
#[derive(Clone, Copy)]
pub struct Mark {
    pub at: u32,
    pub length: u16,
    pub kind: TokenKind,
}

/// A token of a text.
#[derive(Drop)]
pub struct Token<'a> {
    text: &'a [u8],
    mark: Mark,
}

impl<'a> Model for Token<'a> {
    ghost use Rattle.st_ast.specs.Tokens as tokens;
    ghost use Rattle.st_read.specs.Marks.{IsMark, token_of};

    ghost Value = { tokens.Token };

    ghost view = { λ t. token_of t.text.now t.mark };

    ghost invariant = { λ t. IsMark t.text.now t.mark };
}

/// The text from a place on.
#[tactic(auto, using(crate::proofs::Marked::nothing_from))]
fn rest_from(text: &[u8], at: u32) -> &[u8]
    ensures { result.now ≡ drop at text.now }
{
    let at = at as usize;
    if at < text.len() {
        text.split_at(at).1
    } else {
        b""
    }
}

impl<'a> Token<'a> {
    /// The token at a mark.
    pub fn of(text: &'a [u8], mark: Mark) -> Token<'a>
        requires { IsMark text.now mark }
        ensures { result ≡ token_of text.now mark }
    {
        Token { text, mark }
    }

    pub fn kind(&self) -> TokenKind
        ensures { result ≡ self.now.kind }
    {
        self.mark.kind
    }

    /// The letters of a name.
    pub fn name(&self) -> &'a [u8]
        ensures { self.now.kind ≡ TokenKind.Name → result.now ≡ self.now.text }
    {
        let rest = rest_from(self.text, self.mark.at);
        let length = usize::from(self.mark.length);
        if self.mark.length < u16::MAX && length <= rest.len() {
            rest.split_at(length).0
        } else {
            split_word(rest).0
        }
    }

    /// The number that a literal stands for.
    pub fn value(&self) -> u64
        ensures of_literal { self.now.kind ≡ TokenKind.Literal → result ≡ number_of self.now.text }
        ensures small { result ≤ greatest }
    {
        let (digits, _rest) = split_number(rest_from(self.text, self.mark.at));
        match value_of(digits) {
            Some(value) => value,
            None => 0,
        }
    }
}
