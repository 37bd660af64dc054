//! The exclusions and the state invariants of a net (CIF 3 language reference, "Invariants").

use cif_net_expr::NetExpr;

/// An exclusion of one event, which needs the predicate where `allows` is true, and which else the predicate disables.
#[derive(Debug, Drop)]
pub struct Exclusion {
    pub event: u32,
    pub pred: NetExpr,
    pub allows: bool,
}

/// A state invariant, with the byte of the source where its predicate begins.
#[derive(Debug, Drop)]
pub struct Invariant {
    pub pred: NetExpr,
    pub at: u32,
}
