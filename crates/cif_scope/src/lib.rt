//! The scopes of a CIF source: which names each body declares, what they are, and what a name finds (CIF 3 language reference,
//! "Scoping").
#![tactic(auto)]

mod defining;
mod drafting;
mod error;
mod finding;
mod indexing;
mod laws;
mod looked;
mod looking;
mod names;
mod resolving;
mod scope;
mod scopes;
mod table;
mod written;

pub use drafting::number;
pub use error::ScopeErr;
pub use looked::{Looked, Slot};
pub use resolving::number_scopes;
pub use scope::{ParamSort, Scope, ScopeName, Sort, What};
pub use scopes::{Found, Scopes};
pub use written::{Inside, Written, written_bodies};
