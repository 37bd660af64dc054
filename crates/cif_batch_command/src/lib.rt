//! The command `batch ST CASES`: it reads a Structured Text program and a file of cases, replays each case from the memory of the
//! declarations on, in four threads, and writes their tables in the order of the cases.
#![tactic(auto)]

mod command;
mod tables;
mod words;

pub use command::batch;
pub use words::{Batch, read_words};
