//! The Structured Text program of a net of automata (IEC 61131-3), from the statements of its events: the variables, the loops
//! of rounds, the outputs, and that the scans of the program are the net's.
#![tactic(auto)]

mod bounds;
mod faces;
mod given;
mod looping;
mod names;
mod scan;
mod tries;
mod variables;

pub use bounds::Bounds;
pub use given::{Part, frame};
