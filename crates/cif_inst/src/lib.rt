//! The flat net of a CIF source: names are numbers there, and every component has its path, an instance of a definition as well as
//! one that is written where it stands (CIF 3 language reference, "Groups", "Automata", "Component definition and
//! instantiation", "Synchronization", "Discrete variables", "Input variables", "Algebraic variables").
#![tactic(auto)]

mod algebraic;
mod declarations;
mod definitions;
mod equations;
mod error;
mod events;
mod instantiating;
mod measures;
mod objects;
mod outlines;
mod sizes;
mod typing;
mod variables;

pub use error::InstErr;
pub use instantiating::instantiate;
