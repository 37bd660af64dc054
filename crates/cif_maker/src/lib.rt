//! Made sources: a source of any size and the rows for it, both determined by a seed.
#![tactic(auto)]

mod draws;
mod rows;
mod source;

pub use rows::rows_for;
pub use source::make;
