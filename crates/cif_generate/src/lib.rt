//! The command `generate FILE [--unc N] [--con N]`: it reads a source and writes the text of its program, with what is promised
//! of that text.
#![tactic(auto)]

mod command;
mod laws;
mod request;
mod words;

pub use command::generate;
pub use laws::net_shows_the_same;
pub use request::Generate;
pub use words::read_words;
