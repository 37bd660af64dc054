//! The arguments for event and location parameters: each is a bare name, and that of an event has the channel and the class
//! of its parameter (CIF 3 language reference, "Component definition and instantiation").
#![tactic(auto)]

mod checking;
mod classes;
mod fitting;

pub use checking::check_arguments;
