//! The expressions, guards and updates of a CIF source as those of its flat net: names become numbers or values there, arguments
//! stand for parameters, and parentheses are gone (CIF 3 language reference, "Expressions", "Automata", "Component definition and
//! instantiation").
#![tactic(auto)]

mod expressions;
mod looking;
mod naming;
mod nodes;
mod objects;
mod operators;
mod places;
mod translating;
mod updating;

pub use looking::Looking;
pub use objects::{Meaning, Object, Value};
pub use places::value_places;
pub use translating::{expression, guard, sent};
pub use updating::updates;
