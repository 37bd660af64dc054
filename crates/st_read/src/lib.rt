//! Reading Structured Text (IEC 61131-3, "Structured Text"): the pieces of a text, its tokens, and its statements with
//! one token of sight.
#![tactic(auto)]

mod declarations;
mod error;
mod found;
mod laws;
mod levels;
mod lexing;
mod making;
mod marks;
mod names;
mod operands;
mod program;
mod statements;
mod texts;
mod token_lists;
mod tokens;
mod words;

pub use error::StErr;
pub use laws::{no_program_where_refused, one_program, programs_are_small};
pub use texts::read;
pub use token_lists::one_token_list;
