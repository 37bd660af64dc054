//! The tokens of a CIF source (CIF 3 language reference, "Lexical syntax"): which text has which tokens, and a reader
//! that finds them in one pass.
#![tactic(auto)]

mod comments;
mod error;
mod found;
mod laws;
mod lexing;
mod lines;
mod numbers;
mod pieces;
mod signs;
mod token;
mod words;

pub use error::LexErr;
pub use laws::{no_tokens_where_refused, one_token_list, spans_rise};
pub use lexing::lex;
pub use numbers::small_number;
pub use token::{Mark, Token, TokenKind, Word};
pub use words::reserved_word;
