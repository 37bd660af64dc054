//! The values of constant expressions of a CIF source (CIF 3 language reference, "Constants", "Types").
#![tactic(auto)]

mod bounds;
mod error;
mod evaluating;
mod filling;
mod graph;
mod keeping;
mod names;
mod nodes;
mod numbering;
mod operators;
mod ranges;
mod slots;
mod turning;
mod using;
mod values;

pub use bounds::check_bounds;
pub use error::ConstErr;
pub use evaluating::evaluate;
pub use keeping::check_constants;
pub use names::NameValues;
pub use ranges::{Types, ValueRange};
pub use slots::declarations;
pub use turning::turns;
pub use values::{Constants, constant_values};
