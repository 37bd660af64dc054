//! Loading a CIF source: from its bytes to the flat net that represents it, with the choices of all events, or the rule that it
//! breaks (CIF 3 language reference).
#![tactic(auto)]

mod building;
mod error;
mod loading;

pub use error::{LoadErr, Unloaded};
pub use loading::{load, load_named};
