//! Bodies of automata.

use cif_ast::{Decl, Name};
use cif_base::Items;

/// What stands before the locations of an automaton: declarations, its alphabet, or what it monitors.
#[derive(Drop)]
pub enum BodyElement {
    Decls(Items<Decl>),
    Alphabet(Items<Name>),
    Monitor(Items<Name>),
}
