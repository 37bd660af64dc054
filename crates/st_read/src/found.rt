//! What stands at the front of a text.

use st_ast::TokenKind;

/// Why nothing is taken from the front of a text.
#[derive(Clone, Copy, Debug, PartialEq, Eq)]
pub enum Fault {
    BadByte,
    NumberTooBig,
    OpenComment,
}

/// The kind of a token, or none for a blank or a comment, and the text after it.
pub type Found<'a> = Result<(Option<TokenKind>, &'a [u8]), Fault>;
