//! What matters of an expression where it becomes an operand.

ghost use Rattle.std.specs.Prelude.{◌≡◌, IfOk};
ghost use Rattle.st_ast.specs.View.{view_expr};
ghost use Rattle.plc_expr.specs.Texts.{factor, negated, operand, says, says_or, side, term, wrapped};
ghost use Rattle.plc_expr.specs.Shapes.{literal_in, shape_of};

use cif_base::{Boxed, Memory};
use st_ast::StExpr;
use std::alloc::Global;

/// A literal of truth, a name, another expression that no operator has made, a product, another number, a test, or a list of
/// operands of `AND`, `XOR` or `OR`.
#[derive(Clone, Copy, Debug, PartialEq, Eq)]
pub enum Shape {
    Truth(bool),
    Name,
    Factor,
    Product,
    Number,
    Test,
    Joined,
}

/// The shape of an expression.
pub fn shape_of_expr(e: &StExpr) -> Shape
    ensures { result ≡ shape_of (view_expr e.now) }
{
    match e {
        StExpr::Bool(b) => Shape::Truth(*b),
        StExpr::Named(_) => Shape::Name,
        StExpr::Int(_) | StExpr::Paren(_) | StExpr::Abs(_) => Shape::Factor,
        StExpr::Min(_, _) | StExpr::Max(_, _) | StExpr::Sel(_, _, _) => Shape::Factor,
        StExpr::Product { first: _, rest: _ } => Shape::Product,
        StExpr::Neg(_) | StExpr::Sum { first: _, rest: _ } => Shape::Number,
        StExpr::Not(_)
        | StExpr::Order {
            left: _,
            op: _,
            right: _,
        } => Shape::Test,
        StExpr::Equal {
            left: _,
            equal: _,
            right: _,
        } => Shape::Test,
        StExpr::And(_) | StExpr::Xor(_) | StExpr::Or(_) => Shape::Joined,
    }
}

fn in_parentheses(alloc: Global, e: Boxed<StExpr>, needed: bool) -> Result<Boxed<StExpr>, Memory>
    ensures { IfOk result (λ x. view_expr x ≡ wrapped needed (view_expr e)) }
{
    if needed {
        Boxed::new(alloc, StExpr::Paren(e))
    } else {
        Ok(e)
    }
}

/// The expression as an operand of AND or OR.
#[tactic(auto, using(crate::proofs::Shaping::operand_by))]
pub fn as_operand(alloc: Global, e: Boxed<StExpr>) -> Result<Boxed<StExpr>, Memory>
    ensures { IfOk result (λ x. view_expr x ≡ operand (view_expr e)) }
{
    let joined = matches!(shape_of_expr(e.get()), Shape::Joined);
    in_parentheses(alloc, e, joined)
}

/// The expression as an operand of a comparison.
#[tactic(auto, using(crate::proofs::Shaping::side_by))]
pub fn as_side(alloc: Global, e: Boxed<StExpr>) -> Result<Boxed<StExpr>, Memory>
    ensures { IfOk result (λ x. view_expr x ≡ side (view_expr e)) }
{
    let test = matches!(shape_of_expr(e.get()), Shape::Test | Shape::Joined);
    in_parentheses(alloc, e, test)
}

/// The expression as an operand of a product, or of a minus.
#[tactic(auto, using(crate::proofs::Shaping::factor_by))]
pub fn as_factor(alloc: Global, e: Boxed<StExpr>) -> Result<Boxed<StExpr>, Memory>
    ensures { IfOk result (λ x. view_expr x ≡ factor (view_expr e)) }
{
    let stands = matches!(
        shape_of_expr(e.get()),
        Shape::Truth(_) | Shape::Name | Shape::Factor
    );
    in_parentheses(alloc, e, !stands)
}

/// The expression as an operand of a sum.
#[tactic(auto, using(crate::proofs::Shaping::term_by))]
pub fn as_term(alloc: Global, e: Boxed<StExpr>) -> Result<Boxed<StExpr>, Memory>
    ensures { IfOk result (λ x. view_expr x ≡ term (view_expr e)) }
{
    let stands = matches!(
        shape_of_expr(e.get()),
        Shape::Truth(_) | Shape::Name | Shape::Factor | Shape::Product
    );
    in_parentheses(alloc, e, !stands)
}

/// The negation: of a literal the other one, and else with parentheses round what is no leaf.
#[tactic(auto, using(crate::proofs::Shaping::negated_by))]
pub fn negation_of(alloc: Global, e: Boxed<StExpr>) -> Result<Boxed<StExpr>, Memory>
    ensures { IfOk result (λ x. view_expr x ≡ negated (view_expr e)) }
{
    match shape_of_expr(e.get()) {
        Shape::Truth(b) => Boxed::new(alloc, StExpr::Bool(!b)),
        Shape::Name => Boxed::new(alloc, StExpr::Not(e)),
        _ => {
            let inner = Boxed::new(alloc, StExpr::Paren(e))?;
            Boxed::new(alloc, StExpr::Not(inner))
        }
    }
}

/// Which literal of truth the expression is, if it is one.
#[tactic(auto, using(crate::proofs::Shaping::literal_by))]
pub fn literal_of(e: &StExpr) -> Option<bool>
    ensures { result ≡ literal_in (view_expr e.now) }
{
    match shape_of_expr(e) {
        Shape::Truth(b) => Some(b),
        _ => None,
    }
}

/// Whether the expression is more than `TRUE`.
#[tactic(auto, using(crate::proofs::Shaping::says_by))]
pub fn says_more(e: &StExpr) -> bool
    ensures { result ≡ says (view_expr e.now) }
{
    match shape_of_expr(e) {
        Shape::Truth(b) => !b,
        _ => true,
    }
}

/// Whether the expression is more than `FALSE`.
#[tactic(auto, using(crate::proofs::Shaping::says_or_by))]
pub fn says_more_or(e: &StExpr) -> bool
    ensures { result ≡ says_or (view_expr e.now) }
{
    match shape_of_expr(e) {
        Shape::Truth(b) => b,
        _ => true,
    }
}
