//! The inputs, variables and algebraic variables of a net (CIF 3 language reference, "Discrete variables", "Algebraic
//! variables", "Input variables"). `literals` has the names of an enumeration's literals, and is empty for other types.

use cif_base::{Items, Text, Ty};
use cif_net_expr::NetExpr;

/// An input, with its value in the initial state.
#[derive(Debug, Drop)]
pub struct Input {
    pub path: Text,
    pub ty: Ty,
    pub first: i64,
    pub literals: Items<Text>,
}

/// A discrete variable, with its value in the initial state.
#[derive(Debug, Drop)]
pub struct Var {
    pub path: Text,
    pub ty: Ty,
    pub first: i64,
    pub literals: Items<Text>,
}

/// An algebraic variable, with its definition.
#[derive(Debug, Drop)]
pub struct Alg {
    pub path: Text,
    pub ty: Ty,
    pub literals: Items<Text>,
    pub value: AlgValue,
}

/// The definition of an algebraic variable: one expression, or one for each location of an automaton.
#[derive(Debug, Drop)]
pub enum AlgValue {
    One(NetExpr),
    ByLoc { auto: u32, values: Items<NetExpr> },
}
