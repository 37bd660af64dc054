//! The choices of all events of a flat net, each once and in their order (CIF 3 language reference, "Synchronization",
//! "Channels", "Monitoring").
#![tactic(auto)]

mod adding;
mod choosing;
mod draft;
mod error;
mod listing;
mod options;
mod parties;
mod party;
mod tests;

pub use error::LinErr;
pub use listing::linearise;
