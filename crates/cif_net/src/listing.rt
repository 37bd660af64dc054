//! Tables that are computed for a net: who takes part in each event, and the choices of all events (CIF 3 language
//! reference, "Automata", "Channels"). Automata, events, edges of an automaton and invariants are numbers from 0.

use cif_base::Items;
use cif_net_expr::{NetExpr, NetUpdate};

/// The roles in each event of a net, by its number.
#[derive(Debug, Drop)]
pub struct Roles {
    pub events: Items<EventRoles>,
}

/// The automata that synchronise on an event, those of them that monitor it, those that send and those that receive, each in
/// ascending number.
#[derive(Debug, Drop)]
pub struct EventRoles {
    pub syncs: Items<u32>,
    pub monitors: Items<u32>,
    pub sends: Items<u32>,
    pub receives: Items<u32>,
}

/// The choices of all events, in the order of events.
#[derive(Debug, Drop)]
pub struct Linear {
    pub choices: Items<Choice>,
}

/// A choice for an event: what each automaton that takes part does, the test of the old state, what is sent, what is
/// assigned, and the state invariants that are asked of the new state.
#[derive(Debug, Drop)]
pub struct Choice {
    pub event: u32,
    pub moves: Items<Move>,
    pub test: NetExpr,
    pub sent: Option<NetExpr>,
    pub writes: Items<NetUpdate>,
    pub invariants: Items<u32>,
}

/// An automaton takes one of its edges, or it stays.
#[derive(Clone, Copy, Debug, PartialEq, Eq)]
pub struct Move {
    pub auto: u32,
    pub edge: Option<u32>,
}
