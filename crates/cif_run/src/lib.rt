//! What is the same for every command: how a call ends, which text went to the output, what is told of it, and the run of
//! a command that the trait `Command` stands for.
#![tactic(auto)]

mod command;
mod ended;
mod reading;
mod status;
mod telling;

pub use command::{Command, put_text, run};
pub use ended::Ended;
pub use reading::read_file;
pub use status::{ProfileWhy, StRefusal, Status, StopWhy, code};
pub use telling::report;
