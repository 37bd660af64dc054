//! The statements of the events of a net in Structured Text, as definitions and laws for the crates above: for each
//! choice all new values are computed from the old state and tested against their ranges, and only then stored, and the
//! automata move. The parts of a program: one for each event, and one that shows the algebraic variables.
#![tactic(auto)]

mod defining;
mod laws;

pub use defining::definitions_are_told;
pub use laws::{event_parts_are_tried, events_are_tried, expressions_keep_their_promises};
