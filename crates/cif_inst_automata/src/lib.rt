//! The automata of a CIF source in its flat net: their alphabets, what they monitor, their locations and their edges, and whether
//! their events keep the rules on alphabets and roles (CIF 3 language reference, "Automata", "Edges", "Synchronization",
//! "Monitoring", "Channels").
#![tactic(auto)]

mod alphabets;
mod autos;
mod body_names;
mod edges;
mod error;
mod marks;
mod roles;
mod rules;
mod targets;
mod used;

pub use alphabets::Alphabet;
pub use autos::all_autos;
pub use error::AutomataErr;
pub use rules::alphabets_of;
pub use used::Used;
