//! The printed text of a Structured Text program.
#![tactic(auto)]

mod expressions;
mod printer;
mod program;
mod statements;

pub use program::print;
