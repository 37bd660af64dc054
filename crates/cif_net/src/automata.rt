//! The automata of a net and their edges (CIF 3 language reference, "Automata").

use cif_base::{Items, Text};
use cif_net_expr::{NetExpr, NetUpdate};

/// An automaton. `locs` has the name of each location, empty for one without a name, and `first` is the number of the
/// initial one. `alphabet` has the events that it synchronises on, and `monitors` those of them that it never blocks.
/// Edges stand in the order of the text, an edge for each event of one that is written for several.
#[derive(Debug, Drop)]
pub struct Auto {
    pub path: Text,
    pub locs: Items<Text>,
    pub first: u32,
    pub alphabet: Items<u32>,
    pub monitors: Items<u32>,
    pub edges: Items<NetEdge>,
}

/// An edge for one event, between locations of its automaton. `places` are bytes of the source: where the sent value
/// begins, and then where each assigned name does.
#[derive(Debug, Drop)]
pub struct NetEdge {
    pub event: u32,
    pub role: NetRole,
    pub from: u32,
    pub to: u32,
    pub guard: NetExpr,
    pub sent: Option<NetExpr>,
    pub updates: Items<NetUpdate>,
    pub places: Items<u32>,
}

/// What an edge does with its event: it synchronises, it sends over the channel, or it receives from it (CIF 3 language
/// reference, "Channels").
#[derive(Clone, Copy, Debug, PartialEq, Eq)]
pub enum NetRole {
    Sync,
    Send,
    Recv,
}
