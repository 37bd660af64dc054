//! The rules on assigned variables of a CIF source: each is declared in the automaton that assigns it, and no two updates of one
//! list assign the same variable (CIF 3 language reference, "Automata", "Updates").
#![tactic(auto)]

mod assigning;
mod checking;
mod error;
mod listing;
mod marks;

pub use checking::check_targets;
pub use error::TargetErr;
