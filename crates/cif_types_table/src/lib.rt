//! The kinds of all that a CIF source declares (CIF 3 language reference, "Types", "Type declarations", "Enumerations").
#![tactic(auto)]

mod filling;
mod keys;
mod layout;
mod lists;
mod naming;
mod settling;
mod walking;

pub use filling::kind_table;
