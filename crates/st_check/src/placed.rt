//! Expressions and statements whose names are resolved: a variable stands as its place among the declared ones.

use cif_base::{Boxed, Items};
use st_ast::{StMul, StOrder, StTy};

/// An operation on one operand.
#[derive(Clone, Copy)]
pub enum Single {
    Minus,
    Not,
    Absolute,
}

/// How one number stands to another. The other relations are these three not holding, or the operands the other way round.
#[derive(Clone, Copy)]
pub enum Relation {
    Less,
    AtMost,
    Equal,
}

/// What joins the operands of one level to a BOOL.
#[derive(Clone, Copy)]
pub enum Join {
    And,
    Xor,
    Or,
}

/// What stands between two operands, as a program writes it.
#[derive(Clone, Copy)]
pub enum Pairing {
    Order(StOrder),
    /// Whether the two are equal, or whether they differ.
    Equality(bool),
    Smaller,
    Larger,
}

/// An expression. A literal is its number, and parentheses are gone. A number and a variable take no memory of their own.
/// Which operation an expression is stands beside the box with its operands, so that it is known before they are fetched.
#[cycle(placed_expressions)]
#[derive(Drop)]
pub enum PlacedExpr {
    Number(i64),
    Place(u32),
    Single {
        op: Single,
        operand: Boxed<PlacedExpr>,
    },
    Sum(Boxed<PlacedSum>),
    Product(Boxed<PlacedProduct>),
    Joined {
        join: Join,
        operands: Boxed<PlacedOperands>,
    },
    /// Whether the relation holds, or whether it doesn't.
    Related {
        is: Relation,
        holds: bool,
        operands: Boxed<PlacedPair>,
    },
    /// The larger of two values, or the smaller.
    Extreme {
        larger: bool,
        operands: Boxed<PlacedPair>,
    },
    Select(Boxed<PlacedSelection>),
}

/// The operands of a sum.
#[cycle(placed_expressions)]
#[derive(Drop)]
pub struct PlacedSum {
    pub first: PlacedExpr,
    pub rest: Items<PlacedTerm>,
}

/// The operands of a product.
#[cycle(placed_expressions)]
#[derive(Drop)]
pub struct PlacedProduct {
    pub first: PlacedExpr,
    pub rest: Items<PlacedFactor>,
}

/// The operands of one level that are joined to a BOOL.
#[cycle(placed_expressions)]
#[derive(Drop)]
pub struct PlacedOperands {
    pub all: Items<PlacedExpr>,
}

/// Two operands.
#[cycle(placed_expressions)]
#[derive(Drop)]
pub struct PlacedPair {
    pub first: PlacedExpr,
    pub second: PlacedExpr,
}

/// A condition, the value where it is FALSE, and the one where it is TRUE.
#[cycle(placed_expressions)]
#[derive(Drop)]
pub struct PlacedSelection {
    pub condition: PlacedExpr,
    pub otherwise: PlacedExpr,
    pub then: PlacedExpr,
}

/// A further operand of a sum.
#[cycle(placed_expressions)]
#[derive(Drop)]
pub struct PlacedTerm {
    pub minus: bool,
    pub value: PlacedExpr,
}

/// A further operand of a product.
#[cycle(placed_expressions)]
#[derive(Drop)]
pub struct PlacedFactor {
    pub op: StMul,
    pub value: PlacedExpr,
}

/// A test of variables, which has a truth in every memory, so that a test that decides spares the others. `turned` says that
/// it stands under `NOT`.
#[cycle(placed_tests)]
#[derive(Drop)]
pub enum PlacedTest {
    /// A variable beside a number.
    Compare {
        is: Relation,
        holds: bool,
        turned: bool,
        place: u32,
        number: i64,
    },
    /// A BOOL.
    Flag {
        turned: bool,
        place: u32,
    },
    Not(Boxed<PlacedTest>),
    All(Items<PlacedTest>),
    Any(Items<PlacedTest>),
}

/// A condition.
#[derive(Drop)]
pub enum PlacedCond {
    Test(PlacedTest),
    Value(PlacedExpr),
}

/// A statement. An assignment holds the type of its variable, and `other` is what stands after `ELSE`.
#[cycle(placed_statements)]
#[derive(Drop)]
pub enum PlacedStmt {
    Assign {
        place: u32,
        ty: StTy,
        value: PlacedExpr,
    },
    If {
        branches: Items<PlacedBranch>,
        other: Items<PlacedStmt>,
    },
    While {
        cond: PlacedCond,
        body: Items<PlacedStmt>,
    },
}

/// A condition after `IF` or `ELSIF`, and what stands after its `THEN`.
#[cycle(placed_statements)]
#[derive(Drop)]
pub struct PlacedBranch {
    pub cond: PlacedCond,
    pub body: Items<PlacedStmt>,
}
