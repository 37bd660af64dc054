//! The rules on bodies as written: kinds of expressions, constant expressions, initial locations, assigned variables and
//! definitions of algebraic variables (CIF 3 language reference, "Expressions", "Constants", "Automata", "Algebraic variables").
#![tactic(auto)]

mod bodies;
mod checking;
mod error;
mod initials;
mod kinds;

pub use checking::check_kinds;
pub use error::TypeErr;
pub use kinds::{Kind, Kinds};
