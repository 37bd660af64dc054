//! The names of a generated program's variables.
#![tactic(auto)]

mod name;
mod tidying;

pub use name::name_of;
