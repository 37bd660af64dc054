//! The command `check FILE`: it reads a source and writes `ok` where it is accepted.
#![tactic(auto)]

mod command;
mod words;

pub use command::check;
pub use words::{Check, read_words};
