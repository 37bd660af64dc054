//! The command `simulate FILE SCRIPT` or `simulate FILE --first N`: it reads a source and writes the lines of a run, by a script or by
//! the first event that has a step, each before the next line of the script is read or the next step is made.
#![tactic(auto)]

mod command;
mod request;
mod running;
mod scripts;
mod words;

pub use command::simulate;
pub use request::{FirstSteps, Simulate, Which};
pub use scripts::{read_script, status_of};
pub use words::read_words;
