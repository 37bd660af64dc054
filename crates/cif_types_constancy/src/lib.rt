//! Whether the expressions of a CIF source that are to be constant are, and the types and values that its bodies write (CIF 3
//! language reference, "Constants").
#![tactic(auto)]

mod checking;
mod collecting;
mod constancy;
mod error;

pub use checking::check_constancy;
pub use collecting::{Typed, body_decls, body_types, body_values};
pub use error::ConstancyErr;
