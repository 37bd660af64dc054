//! A choice that is put together, automaton by automaton.

use cif_base::Items;
use cif_net::{Move, NetExpr, NetUpdate};

/// What the automata so far do in a choice, the members of its test, what is sent, and what is assigned.
#[derive(Drop)]
pub struct Draft {
    pub moves: Items<Move>,
    pub tests: Items<NetExpr>,
    pub sent: Option<NetExpr>,
    pub writes: Items<NetUpdate>,
}
