//! The command `why FILE SCRIPT EVENT`: it reads a source, follows a script silently, and writes the reasons why an event has no step in
//! the state reached.
#![tactic(auto)]

mod command;
mod explaining;
mod request;
mod words;

pub use command::why;
pub use request::Why;
pub use words::read_words;
