//! The walk over an expression of a net that writes it as Structured Text, and the types of the variables of its own.
#![tactic(auto)]

mod choosing;
mod laws;
mod negating;
mod types;
mod walk;

pub use laws::{statements_before_a_text_follow_the_names, texts_follow_the_names};
pub use types::own_types_of;
pub use walk::written;
