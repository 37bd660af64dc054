//! The components of a CIF source, one row for each in the order of their numbers, with what their paths begin with (CIF 3 language
//! reference, "Groups", "Automata", "Component definition and instantiation").
#![tactic(auto)]

mod rows;

pub use rows::{Row, all_rows, body_number};
