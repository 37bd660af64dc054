//! Who takes part in each event of a flat net: the automata that synchronise on it, monitor it, send and receive (CIF 3
//! language reference, "Synchronization", "Channels", "Monitoring").
#![tactic(auto)]

mod buckets;
mod columns;
mod places;
mod table;

pub use places::{places_at, places_by_event};
pub use table::roles;
