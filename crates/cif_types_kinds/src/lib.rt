//! The kinds of expressions of a CIF source, and whether each operand has the kind that is asked of it (CIF 3 language
//! reference, "Types", "Expressions").
#![tactic(auto)]

mod arguments;
mod bodies;
mod declarations;
mod edges;
mod error;
mod expressions;
mod kind;
mod reading;
mod table;
mod uses;

pub use error::KindErr;
pub use kind::{Channel, Kind};
pub use reading::Reading;
pub use table::KindTable;
