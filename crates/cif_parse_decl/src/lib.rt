//! Reading types, declarations and parameters of a CIF source (CIF 3 language reference, "Declarations", "Types",
//! "Invariants").
#![tactic(auto)]

mod declarations;
mod events;
mod invariants;
mod parameter_parts;
mod sight;
mod types;
mod values;

pub use declarations::{declaration, disc_declaration, plain_declaration};
pub use invariants::{component_kind, kind_invariants};
pub use parameter_parts::{given, parameters};
pub use sight::{begins_declaration, is_component};
