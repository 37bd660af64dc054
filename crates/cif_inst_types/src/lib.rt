//! The values of the constants of a CIF source, and the types and first values of its variables in a flat net (CIF 3 language
//! reference, "Declarations", "Types").
#![tactic(auto)]

mod types;
mod values;

pub use types::{NetTy, first_value, type_of};
pub use values::values_of;
