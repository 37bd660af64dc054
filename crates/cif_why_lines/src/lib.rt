//! The lines of the reasons why an event has no step.
#![tactic(auto)]

mod lines;
mod targets;
mod values;

pub use lines::put_reasons;
