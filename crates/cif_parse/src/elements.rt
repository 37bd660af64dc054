//! What stands in a location.

use cif_ast::{Edge, Expr, LocEquation};
use cif_base::Items;

/// An element of a location: `initial`, marking predicates, an equation, or an edge.
#[derive(Drop)]
pub enum Element {
    Initial,
    Marked(Items<Expr>),
    Equation(LocEquation),
    Edge(Edge),
}
