//! Many cases beside each other: the table of each is made by itself, by workers, and all come in the order of the cases.
#![tactic(auto)]

mod cutting;
mod dropping;
mod error;
mod gate;
mod laws;
mod part;
mod reading;
mod workers;

pub use dropping::drop_cases;
pub use error::CaseErr;
pub use gate::{Gate, NoGate};
pub use laws::batches_agree;
pub use reading::read_cases;
pub use workers::batch;
