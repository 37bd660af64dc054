//! The numbers of what the components of a CIF source declare in the flat net: events, inputs, discrete variables, algebraic
//! variables and automata, each numbered by components in their order, instances of definitions among them, and then by
//! declarations.
#![tactic(auto)]

mod bodies;
mod counts;
mod numbers;

pub use counts::{Counted, Counts};
pub use numbers::{Numbered, Numbers, number_objects};
