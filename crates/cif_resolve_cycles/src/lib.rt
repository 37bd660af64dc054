//! Whether a definition, a type or a constant of a CIF source reaches itself (CIF 3 language reference, "Component definition and
//! instantiation", "Type declarations", "Constants").
#![tactic(auto)]

mod bodies;
mod cycles;
mod needs;
mod numbers;
mod places;

pub use cycles::cyclic_name;
