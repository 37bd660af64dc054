//! The command `replay ST ROWS`: it reads a Structured Text program and a file of rows, makes a scan for each row, and writes the
//! table of the program's outputs after each.
#![tactic(auto)]

mod command;
mod programs;
mod tables;
mod words;

pub use command::replay;
pub use programs::program_of;
pub use tables::{row_status, scan_ended};
pub use words::{Replay, read_words};
