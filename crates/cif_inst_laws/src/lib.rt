//! Laws of the flat net of a CIF source, for the crates above: it is a net and represents the source, its expressions
//! keep their kinds, its numbers are small, and its conditional updates nest no deeper than those of the source (CIF 3
//! language reference, "Automata", "Discrete variables", "Synchronization", "Expressions", "Types").
#![tactic(auto)]

mod fitting;
mod nesting;
mod nets;
mod small;

pub use fitting::{
    conditions_keep_their_kind, conditions_of_updates_keep_their_kind,
    expressions_keep_their_kinds, guards_keep_their_kind, sent_values_keep_their_kinds,
    values_of_updates_keep_their_kinds,
};
pub use nesting::shallow_trees_have_shallow_nets;
pub use nets::{nets_of_sources_are_nets, nets_represent_their_sources};
pub use small::{counted_trees_have_small_parts, trees_have_small_arguments};
