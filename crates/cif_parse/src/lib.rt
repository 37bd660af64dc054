//! Reading a CIF source as its tree (CIF 3 language reference).
#![tactic(auto)]

mod automata;
mod bodies;
mod components;
mod edges;
mod elements;
mod error;
mod expressions;
mod laws;
mod locations;
mod parsing;
mod places;
mod updating;

pub use bodies::BodyElement;
pub use elements::Element;
pub use error::ParseErr;
pub use laws::one_tree;
pub use parsing::parse;
