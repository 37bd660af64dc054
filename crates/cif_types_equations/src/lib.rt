//! The rule that each algebraic variable of a CIF source has one definition: once in a group, and in each location of an
//! automaton (CIF 3 language reference, "Algebraic variables").
#![tactic(auto)]

mod checking;
mod counting;
mod declarations;
mod error;
mod tallies;
mod tallying;

pub use checking::check_equations;
pub use error::EquationErr;
