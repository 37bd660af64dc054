//! Flat nets of automata, as definitions for the crates above: their meaning, what they keep, what may be read off
//! them, how deep their conditional updates nest (CIF 3 language reference, "Edges"), and which expressions are
//! computed without a fault; and laws of these.
#![tactic(auto)]

mod laws;
mod safety;

pub use laws::{shown_value_in_range, value_fits, value_in_interval};
pub use safety::{
    initial_states_are_states, plain_expressions_are_safe, plain_expressions_of_nets_are_safe,
};
