//! Updates of a flat net (CIF 3 language reference, "Automata").

use crate::expressions::NetExpr;
use cif_base::Items;

/// An update of an edge: a variable, by its number, is assigned, or the first branch is taken whose condition holds.
/// `other` is empty where there is no `else`.
#[cycle(update)]
#[derive(Debug, Drop)]
pub enum NetUpdate {
    Set {
        var: u32,
        value: NetExpr,
    },
    If {
        branches: Items<NetUpdateBranch>,
        other: Items<NetUpdate>,
    },
}

/// A branch of an `if` update: its condition and its updates.
#[cycle(update)]
#[derive(Debug, Drop)]
pub struct NetUpdateBranch {
    pub cond: NetExpr,
    pub updates: Items<NetUpdate>,
}
