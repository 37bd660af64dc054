//! Why an event has no step in a state of a net (CIF 3 language reference, "Synchronization", "Channels", "Invariants").
#![tactic(auto)]

mod blocking;
mod breaking;
mod excluding;
mod leaves;
mod leaving;
mod marked;
mod marks;
mod numbering;
mod openings;
mod parties;
mod ranges;
mod reason;
mod roles;
mod stepping;
mod storing;
mod telling;

pub use reason::Reason;
pub use telling::reasons;
