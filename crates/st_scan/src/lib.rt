//! A machine that executes Structured Text programs scan by scan (IEC 61131-3).
#![tactic(auto)]

mod conditions;
mod error;
mod machine;
mod statements;
mod storing;
mod values;

pub use error::ScanErr;
pub use machine::Machine;
