//! The form that operands of one level make, with the operators between them.

ghost use Rattle.std.specs.Prelude.{◌≡◌, [], ◌∷◌, true, false, map, IfOk};
ghost use Rattle.st_ast.specs.Grammar as grammar;
ghost use Rattle.st_ast.specs.Tree as tree;
ghost use Rattle.st_ast.specs.View.{view_expr, view_factor, view_term, factors_of, terms_of};
ghost use Rattle.st_read.specs.Operands.{operand_view, factor_of, term_of, value_of};
ghost use Rattle.st_read.specs.Reading as reading;

use cif_base::{Boxed, Items, Memory};
use st_ast::{StExpr, StFactor, StMul, StOrder, StTerm, TokenKind};
use std::alloc::Global;

/// An operand after an operator, with the kind of the operator's token.
#[derive(Drop)]
pub struct Operand {
    pub kind: TokenKind,
    pub value: StExpr,
}

fn mul_of(kind: TokenKind) -> StMul
    ensures { result ≡ grammar.mul_of kind }
{
    match kind {
        TokenKind::Slash => StMul::Div,
        TokenKind::Mod => StMul::Mod,
        _ => StMul::Times,
    }
}

fn is_minus(kind: TokenKind) -> bool
    ensures { result ≡ grammar.is_minus kind }
{
    matches!(kind, TokenKind::Dash)
}

fn order_of(kind: TokenKind) -> StOrder
    ensures { result ≡ grammar.order_of kind }
{
    match kind {
        TokenKind::Greater => StOrder::Gt,
        TokenKind::AtMost => StOrder::Le,
        TokenKind::AtLeast => StOrder::Ge,
        _ => StOrder::Lt,
    }
}

fn is_equality(kind: TokenKind) -> bool
    ensures { result ≡ grammar.is_equality kind }
{
    matches!(kind, TokenKind::Equals)
}

fn factors(alloc: Global, others: Items<Operand>) -> Result<Items<StFactor>, Memory>
    ensures { IfOk result (λ all. map view_factor all ≡ map factor_of others) }
{
    let mut all = Vec::with_capacity(alloc, others.len())?;
    for other in others.into_vec() {
        let op = mul_of(other.kind);
        let value = other.value;
        all.push(StFactor { op, value })?;
    }
    Ok(Items::from_vec(all))
}

fn terms(alloc: Global, others: Items<Operand>) -> Result<Items<StTerm>, Memory>
    ensures { IfOk result (λ all. map view_term all ≡ map term_of others) }
{
    let mut all = Vec::with_capacity(alloc, others.len())?;
    for other in others.into_vec() {
        let minus = is_minus(other.kind);
        let value = other.value;
        all.push(StTerm { minus, value })?;
    }
    Ok(Items::from_vec(all))
}

/// All operands, the first among them.
fn joined(
    alloc: Global,
    first: Boxed<StExpr>,
    others: Items<Operand>,
) -> Result<Items<StExpr>, Memory>
    ensures { IfOk result (λ all. map view_expr all ≡ view_expr first ∷ map value_of others) }
{
    let mut all = Vec::with_capacity(alloc, others.len().saturating_add(1))?;
    all.push(first.into_inner())?;
    for other in others.into_vec() {
        all.push(other.value)?;
    }
    Ok(Items::from_vec(all))
}

fn product(
    alloc: Global,
    first: Boxed<StExpr>,
    rest: Items<StFactor>,
) -> Result<Boxed<StExpr>, Memory>
    ensures { IfOk result (λ e. view_expr e ≡ tree.product (view_expr first) (factors_of (map view_factor rest))) }
{
    Boxed::new(alloc, StExpr::Product { first, rest })
}

fn sum(alloc: Global, first: Boxed<StExpr>, rest: Items<StTerm>) -> Result<Boxed<StExpr>, Memory>
    ensures { IfOk result (λ e. view_expr e ≡ tree.sum (view_expr first) (terms_of (map view_term rest))) }
{
    Boxed::new(alloc, StExpr::Sum { first, rest })
}

fn all_of(alloc: Global, operands: Items<StExpr>) -> Result<Boxed<StExpr>, Memory>
    ensures { IfOk result (λ e. view_expr e ≡ tree.all_of (tree.exprs_of (map view_expr operands))) }
{
    Boxed::new(alloc, StExpr::And(operands))
}

fn odd_of(alloc: Global, operands: Items<StExpr>) -> Result<Boxed<StExpr>, Memory>
    ensures { IfOk result (λ e. view_expr e ≡ tree.odd_of (tree.exprs_of (map view_expr operands))) }
{
    Boxed::new(alloc, StExpr::Xor(operands))
}

fn any_of(alloc: Global, operands: Items<StExpr>) -> Result<Boxed<StExpr>, Memory>
    ensures { IfOk result (λ e. view_expr e ≡ tree.any_of (tree.exprs_of (map view_expr operands))) }
{
    Boxed::new(alloc, StExpr::Or(operands))
}

fn order(
    alloc: Global,
    left: Boxed<StExpr>,
    op: StOrder,
    right: Boxed<StExpr>,
) -> Result<Boxed<StExpr>, Memory>
    ensures { IfOk result (λ e. view_expr e ≡ tree.order (view_expr left) op (view_expr right)) }
{
    Boxed::new(alloc, StExpr::Order { left, op, right })
}

fn equality(
    alloc: Global,
    left: Boxed<StExpr>,
    equal: bool,
    right: Boxed<StExpr>,
) -> Result<Boxed<StExpr>, Memory>
    ensures { IfOk result (λ e. view_expr e ≡ tree.equal (view_expr left) equal (view_expr right)) }
{
    Boxed::new(alloc, StExpr::Equal { left, equal, right })
}

/// What two operands make with an order or an equality between them.
#[tactic(auto, using(crate::proofs::Made::pairs))]
pub fn pair(
    alloc: Global,
    level: u8,
    left: Boxed<StExpr>,
    kind: TokenKind,
    right: Boxed<StExpr>,
) -> Result<Boxed<StExpr>, Memory>
    requires { reading.has_pairs level ≡ true }
    ensures { IfOk result (λ e. view_expr e ≡ reading.made_at level (view_expr left) ((kind, view_expr right) ∷ [])) }
{
    if level == 2 {
        order(alloc, left, order_of(kind), right)
    } else {
        equality(alloc, left, is_equality(kind), right)
    }
}

/// What the operands of a level make, of which there may be more than two.
#[tactic(auto, using(crate::proofs::Made::operands))]
pub fn made(
    alloc: Global,
    level: u8,
    first: Boxed<StExpr>,
    others: Items<Operand>,
) -> Result<Boxed<StExpr>, Memory>
    requires { reading.has_pairs level ≡ false }
    ensures { IfOk result (λ e. view_expr e ≡ reading.made_at level (view_expr first) (map operand_view others)) }
{
    match level {
        0 => product(alloc, first, factors(alloc, others)?),
        1 => sum(alloc, first, terms(alloc, others)?),
        4 => all_of(alloc, joined(alloc, first, others)?),
        5 => odd_of(alloc, joined(alloc, first, others)?),
        _ => any_of(alloc, joined(alloc, first, others)?),
    }
}
