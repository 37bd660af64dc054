//! The components of a CIF source by numbers: the specification, what is written in it, and the instances of definitions, each where
//! it stands, and what names find from them (CIF 3 language reference, "Component definition and instantiation", "Scoping").
#![tactic(auto)]

mod children;
mod components;
mod error;
mod finding;
mod kids;
mod listing;
mod numbering;
mod outers;
mod sizes;

pub use components::{Component, Components, Place};
pub use error::ComponentsErr;
pub use numbering::number_components;
