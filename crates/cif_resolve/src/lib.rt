//! The rules on scopes of a whole CIF source: that each name is declared where it is looked up, once in its scope, and is of the
//! sort that its position asks for, and that no definition, type or constant reaches itself (CIF 3 language reference, "Scoping").
#![tactic(auto)]

mod collecting;
mod counting;
mod fitting;
mod resolving;
mod testing;

pub use resolving::resolve;
