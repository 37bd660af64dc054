//! The text of the Structured Text program of a net of automata (IEC 61131-3), with what is promised of its scans.
#![tactic(auto)]

mod error;
mod generating;
mod laws;

pub use error::ProfileErr;
pub use generating::generate_text;
pub use laws::texts_make_the_scans;
