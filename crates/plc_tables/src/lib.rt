//! The output table of the scans of a program over rows.
#![tactic(auto)]

mod scanning;
mod stopped;
mod tables;

pub use stopped::Stopped;
pub use tables::table;
