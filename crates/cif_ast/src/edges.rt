//! Locations, edges and updates (CIF 3 language reference, "Automata").

use crate::expressions::Expr;
use crate::names::{Ident, Name};
use cif_base::Items;

/// A location. `marked` has its marking predicates, and `marked;` leaves none.
#[derive(Drop)]
pub struct Loc {
    pub name: Option<Ident>,
    pub initial: bool,
    pub marked: Items<Expr>,
    pub equations: Items<LocEquation>,
    pub edges: Items<Edge>,
}

/// The value of an algebraic variable in a location.
#[derive(Drop)]
pub struct LocEquation {
    pub name: Ident,
    pub value: Expr,
}

/// An edge, which stands for one edge for each of its uses of an event. Without a target it leads back.
#[derive(Drop)]
pub struct Edge {
    pub uses: Items<EventUse>,
    pub guards: Items<Expr>,
    pub updates: Items<Update>,
    pub target: Option<Ident>,
}

/// An event on an edge, and what the automaton does with it.
#[derive(Drop)]
pub struct EventUse {
    pub name: Name,
    pub role: Role,
}

/// An automaton synchronises on an event, sends a value or nothing along it, or receives.
#[derive(Drop)]
pub enum Role {
    Sync,
    Send(Option<Expr>),
    Recv,
}

/// An update of an edge. `other` is empty where there is no `else`.
#[cycle(update)]
#[derive(Drop)]
pub enum Update {
    Set {
        target: Name,
        value: Expr,
    },
    If {
        branches: Items<UpdateBranch>,
        other: Items<Update>,
    },
}

/// A branch of an `if` update: its conditions, all of which must hold, and its updates.
#[cycle(update)]
#[derive(Drop)]
pub struct UpdateBranch {
    pub conds: Items<Expr>,
    pub updates: Items<Update>,
}
