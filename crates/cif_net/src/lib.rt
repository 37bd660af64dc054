//! Flat nets of automata, in which numbers stand for names, as types that keep what holds of every net; the states of a
//! net, the tables of its roles and choices, and the definition of an algebraic variable as one expression (CIF 3
//! language reference, "Automata", "Channels", "Algebraic variables").
#![tactic(auto)]

mod automata;
mod data;
mod defining;
mod events;
mod guarded;
mod laws;
mod listing;
mod net;
mod plain;
mod predicates;
mod state;

pub use automata::{Auto, NetEdge, NetRole};
pub use cif_net_expr::{
    CmpOp, MulOp, NetBranch, NetExpr, NetFactor, NetForm, NetTerm, NetUpdate, NetUpdateBranch,
    copy_updates,
};
pub use data::{Alg, AlgValue, Input, Var};
pub use defining::{by_places, definition};
pub use events::{Class, Event, NetChan};
pub use guarded::Guarded;
pub use laws::{guarded_choices_are_listed, nets_are_nets, plain_nets_are_plain};
pub use listing::{Choice, EventRoles, Linear, Move, Roles};
pub use net::Net;
pub use plain::Plain;
pub use predicates::{Exclusion, Invariant};
pub use state::State;
