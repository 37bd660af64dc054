//! The choices of a net with what the net asks of each besides agreement: exclusions in their tests, and state invariants
//! (CIF 3 language reference, "Invariants").
#![tactic(auto)]

mod exclusions;
mod guarding;

pub use guarding::guard;
