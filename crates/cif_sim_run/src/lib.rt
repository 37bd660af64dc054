//! The runs of a simulation, by a script or by the first event that has a step. Each line is written before the next line of the
//! script is read, or the next step is made.
#![tactic(auto)]

mod acting;
mod copying;
mod first;
mod following;
mod halt;
mod lines;
mod made;
mod script;
mod touches;

pub use first::run_first;
pub use following::follow_script;
pub use halt::{Halt, StopWhy};
pub use script::run_script;
