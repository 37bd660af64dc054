//! A net in which each algebraic variable is replaced by its definition (CIF 3 language reference, "Algebraic variables").
#![tactic(auto)]

mod defining;
mod nodes;
mod parts;
mod replacing;
mod unfolding;
mod updating;

pub use unfolding::unfold;
