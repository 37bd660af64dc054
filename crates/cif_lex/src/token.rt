//! What a token is.

use cif_base::Span;

/// A token and its place in the source. Its text is the bytes of its span, which for a word written `$x` begin at the
/// `$`.
#[derive(Clone, Copy, Debug, PartialEq, Eq)]
pub struct Token {
    pub kind: TokenKind,
    pub span: Span,
}

/// The kind of a token.
#[derive(Clone, Copy, Debug, PartialEq, Eq)]
pub enum TokenKind {
    /// A word that isn't reserved, or any word with `$` before it.
    Id,
    /// A reserved word.
    Reserved(Word),
    /// A number in decimal digits, at most 2147483647.
    Number,
    /// A sign.
    Sign(Mark),
}

/// A reserved word. Those that the language keeps and this project has no use for are `Unused`.
#[derive(Clone, Copy, Debug, PartialEq, Eq)]
pub enum Word {
    Abs,
    Alg,
    Alphabet,
    And,
    Automaton,
    Bool,
    Const,
    Controllable,
    Def,
    Disables,
    Disc,
    Div,
    Do,
    Edge,
    Elif,
    Else,
    End,
    Enum,
    Equation,
    Event,
    False,
    Goto,
    Group,
    If,
    Initial,
    Input,
    Int,
    Invariant,
    Location,
    Marked,
    Max,
    Min,
    Mod,
    Monitor,
    Needs,
    Not,
    Or,
    Plant,
    Requirement,
    Supervisor,
    True,
    Type,
    Uncontrollable,
    Void,
    When,
    Unused,
}

/// A sign: `. .. , ; : := ( ) [ ] { } + - * = != < <= > >= => <=> ! ?` in this order.
#[derive(Clone, Copy, Debug, PartialEq, Eq)]
pub enum Mark {
    Dot,
    Range,
    Comma,
    Semicolon,
    Colon,
    Assign,
    OpenParen,
    CloseParen,
    OpenBracket,
    CloseBracket,
    OpenBrace,
    CloseBrace,
    Plus,
    Minus,
    Star,
    Equal,
    NotEqual,
    Less,
    LessEqual,
    Greater,
    GreaterEqual,
    Implies,
    Iff,
    Exclamation,
    Question,
}
