//! Expressions of a flat net (CIF 3 language reference, "Expressions").

use cif_base::{Boxed, Items};

/// An expression and the byte of the source where it begins; what stood in parentheses has the place of the outermost.
#[cycle(expression)]
#[derive(Debug, Drop)]
pub struct NetExpr {
    pub form: NetForm,
    pub at: u32,
}

/// The form of an expression. Automata, their locations, variables, inputs and algebraic variables are numbers from 0.
/// `Loc` is true where the automaton is in the location, and `Received` is `?`, the value that an edge receives. A list
/// of operands of one level is one form.
#[cycle(expression)]
#[derive(Debug, Drop)]
pub enum NetForm {
    Bool(bool),
    Int(i64),
    Loc {
        auto: u32,
        place: u32,
    },
    Var(u32),
    Input(u32),
    Alg(u32),
    Received,
    Neg(Boxed<NetExpr>),
    Plus(Boxed<NetExpr>),
    Not(Boxed<NetExpr>),
    Abs(Boxed<NetExpr>),
    Min(Boxed<NetExpr>, Boxed<NetExpr>),
    Max(Boxed<NetExpr>, Boxed<NetExpr>),
    Sum {
        first: Boxed<NetExpr>,
        rest: Items<NetTerm>,
    },
    Product {
        first: Boxed<NetExpr>,
        rest: Items<NetFactor>,
    },
    Compare {
        left: Boxed<NetExpr>,
        op: CmpOp,
        right: Boxed<NetExpr>,
    },
    And(Items<NetExpr>),
    Or(Items<NetExpr>),
    Implies(Boxed<NetExpr>, Boxed<NetExpr>),
    Iff(Boxed<NetExpr>, Boxed<NetExpr>),
    If {
        branches: Items<NetBranch>,
        other: Boxed<NetExpr>,
    },
}

/// A further operand of a sum, which is subtracted where `minus` is true.
#[cycle(expression)]
#[derive(Debug, Drop)]
pub struct NetTerm {
    pub minus: bool,
    pub value: NetExpr,
}

/// A further operand of a product.
#[cycle(expression)]
#[derive(Debug, Drop)]
pub struct NetFactor {
    pub op: MulOp,
    pub value: NetExpr,
}

/// A branch of an `if`: its condition and its value.
#[cycle(expression)]
#[derive(Debug, Drop)]
pub struct NetBranch {
    pub cond: NetExpr,
    pub value: NetExpr,
}

/// `*`, `div` and `mod`.
#[derive(Clone, Copy, Debug, PartialEq, Eq)]
pub enum MulOp {
    Times,
    Div,
    Mod,
}

/// `=`, `!=`, `<`, `<=`, `>` and `>=`.
#[derive(Clone, Copy, Debug, PartialEq, Eq)]
pub enum CmpOp {
    Eq,
    Ne,
    Lt,
    Le,
    Gt,
    Ge,
}
