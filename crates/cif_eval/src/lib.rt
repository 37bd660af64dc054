//! Steps of a net by the numbers of its choices: whether a choice makes a step in a state, and the state after it, by calls
//! that take no memory.
#![tactic(auto)]

mod assigning;
mod copying;
mod invariants;
mod pairs;
mod ranges;
mod scratch;
mod steps;
mod storing;
mod values;

pub use scratch::Scratch;
pub use steps::{enabled, fire};
pub use values::eval;
