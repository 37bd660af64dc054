//! The value of an expression of a net in a state, and whether an expression names an input.
#![tactic(auto)]

mod inputs;
mod operators;
mod values;

pub use inputs::reads_input;
pub use values::{eval, holds};
