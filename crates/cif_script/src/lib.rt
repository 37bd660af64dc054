//! Scripts of a simulation: what their lines say by the names of a net, and the lines that a run writes.
#![tactic(auto)]

mod action;
mod cutting;
mod numbers;
mod paths;
mod telling;
mod touched;
mod values;
mod writing;

pub use action::Action;
pub use cutting::{ScriptLines, script_lines};
pub use paths::Paths;
pub use touched::Touched;
pub use writing::{put_set, put_start, put_step};
