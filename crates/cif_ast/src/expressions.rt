//! Expressions (CIF 3 language reference, "Expressions").

use crate::names::Name;
use cif_base::{Boxed, Items};

/// An expression and the byte where it begins.
#[cycle(expression)]
#[derive(Drop)]
pub struct Expr {
    pub form: Form,
    pub at: u32,
}

/// The form of an expression. A list of operands of one level is one form: `rest` of a sum or product is not empty, and
/// `And` and `Or` have two operands or more. `Received` is `?`, the value that an edge receives.
#[cycle(expression)]
#[derive(Drop)]
pub enum Form {
    Bool(bool),
    Int(i64),
    Named(Name),
    Received,
    Paren(Boxed<Expr>),
    Neg(Boxed<Expr>),
    Plus(Boxed<Expr>),
    Not(Boxed<Expr>),
    Abs(Boxed<Expr>),
    Min(Boxed<Expr>, Boxed<Expr>),
    Max(Boxed<Expr>, Boxed<Expr>),
    Sum {
        first: Boxed<Expr>,
        rest: Items<Term>,
    },
    Product {
        first: Boxed<Expr>,
        rest: Items<Factor>,
    },
    Compare {
        left: Boxed<Expr>,
        op: CmpOp,
        right: Boxed<Expr>,
    },
    And(Items<Expr>),
    Or(Items<Expr>),
    Implies(Boxed<Expr>, Boxed<Expr>),
    Iff(Boxed<Expr>, Boxed<Expr>),
    If {
        branches: Items<Branch>,
        other: Boxed<Expr>,
    },
}

/// A further operand of a sum, which is subtracted where `minus` is true.
#[cycle(expression)]
#[derive(Drop)]
pub struct Term {
    pub minus: bool,
    pub value: Expr,
}

/// A further operand of a product.
#[cycle(expression)]
#[derive(Drop)]
pub struct Factor {
    pub op: MulOp,
    pub value: Expr,
}

/// A branch of an `if`: its conditions, all of which must hold, and its value.
#[cycle(expression)]
#[derive(Drop)]
pub struct Branch {
    pub conds: Items<Expr>,
    pub value: Expr,
}

/// `*`, `div` and `mod`.
#[derive(Clone, Copy, Debug, PartialEq, Eq)]
pub enum MulOp {
    Times,
    Div,
    Mod,
}

/// `=`, `!=`, `<`, `<=`, `>` and `>=`.
#[derive(Clone, Copy, Debug, PartialEq, Eq)]
pub enum CmpOp {
    Eq,
    Ne,
    Lt,
    Le,
    Gt,
    Ge,
}
