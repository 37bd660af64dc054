//! The forms of expressions, given the texts of their operands.

ghost use Rattle.std.specs.Prelude.{◌≡◌, map, IfOk};
ghost use Rattle.cif_net_expr.specs.View.{view_cmp, view_mul};
ghost use Rattle.st_ast.specs.Tree.{absolute, equal, greatest, least, negation, order, product, sum};
ghost use Rattle.st_ast.specs.View.{view_expr, view_factor, view_factors, view_term, view_terms};
ghost use Rattle.plc_expr.specs.Texts.{all_said, all_said_or, comparison, conjunction, disjunction, factor, implication, mul_of, number_text, operand, product_text, side, sum_text, term};

use crate::shapes::{
    as_factor, as_operand, as_side, as_term, literal_of, negation_of, says_more, says_more_or,
};
use cif_base::{Boxed, Items, Memory};
use cif_net_expr::{CmpOp, MulOp};
use st_ast::{StExpr, StFactor, StMul, StOrder, StTerm};
use std::alloc::Global;

// ---- numbers

/// A number: a literal has no sign, so a negative one is a minus in parentheses. The least number of 64 bits, which has no
/// literal of its size, is want of memory; no net has it.
pub fn number_of(alloc: Global, value: i64) -> Result<Boxed<StExpr>, Memory>
    ensures { IfOk result (λ e. view_expr e ≡ number_text value) }
{
    if value >= 0 {
        return Boxed::new(alloc, StExpr::Int(value));
    }
    let Some(size) = value.checked_neg() else {
        return Err(Memory);
    };
    let literal = Boxed::new(alloc, StExpr::Int(size))?;
    let negation = Boxed::new(alloc, StExpr::Neg(literal))?;
    Boxed::new(alloc, StExpr::Paren(negation))
}

/// The unary minus.
pub fn minus_of(alloc: Global, e: Boxed<StExpr>) -> Result<Boxed<StExpr>, Memory>
    ensures { IfOk result (λ x. view_expr x ≡ negation (factor (view_expr e))) }
{
    let inner = as_factor(alloc, e)?;
    Boxed::new(alloc, StExpr::Neg(inner))
}

/// The sum of a first operand and further ones.
pub fn sum_of(
    alloc: Global,
    first: Boxed<StExpr>,
    rest: Items<StTerm>,
) -> Result<Boxed<StExpr>, Memory>
    ensures { IfOk result (λ e. view_expr e ≡ sum_text (view_expr first) (view_terms rest)) }
{
    if rest.is_empty() {
        return Ok(first);
    }
    sum_with(alloc, first, rest)
}

fn sum_with(
    alloc: Global,
    first: Boxed<StExpr>,
    rest: Items<StTerm>,
) -> Result<Boxed<StExpr>, Memory>
    ensures { IfOk result (λ e. view_expr e ≡ sum (term (view_expr first)) (view_terms rest)) }
{
    let first = as_term(alloc, first)?;
    Boxed::new(alloc, StExpr::Sum { first, rest })
}

/// The product of a first operand and further ones.
pub fn product_of(
    alloc: Global,
    first: Boxed<StExpr>,
    rest: Items<StFactor>,
) -> Result<Boxed<StExpr>, Memory>
    ensures { IfOk result (λ e. view_expr e ≡ product_text (view_expr first) (view_factors rest)) }
{
    if rest.is_empty() {
        return Ok(first);
    }
    product_with(alloc, first, rest)
}

fn product_with(
    alloc: Global,
    first: Boxed<StExpr>,
    rest: Items<StFactor>,
) -> Result<Boxed<StExpr>, Memory>
    ensures { IfOk result (λ e. view_expr e ≡ product (factor (view_expr first)) (view_factors rest)) }
{
    let first = as_factor(alloc, first)?;
    Boxed::new(alloc, StExpr::Product { first, rest })
}

// ---- comparisons

/// Whether two values are equal, or where `same` is false whether they differ.
pub fn equality_of(
    alloc: Global,
    left: Boxed<StExpr>,
    same: bool,
    right: Boxed<StExpr>,
) -> Result<Boxed<StExpr>, Memory>
    ensures { IfOk result (λ e. view_expr e ≡ equal (side (view_expr left)) same (side (view_expr right))) }
{
    let left = as_side(alloc, left)?;
    let right = as_side(alloc, right)?;
    Boxed::new(
        alloc,
        StExpr::Equal {
            left,
            equal: same,
            right,
        },
    )
}

fn order_of(
    alloc: Global,
    left: Boxed<StExpr>,
    op: StOrder,
    right: Boxed<StExpr>,
) -> Result<Boxed<StExpr>, Memory>
    ensures { IfOk result (λ e. view_expr e ≡ order (side (view_expr left)) op (side (view_expr right))) }
{
    let left = as_side(alloc, left)?;
    let right = as_side(alloc, right)?;
    Boxed::new(alloc, StExpr::Order { left, op, right })
}

/// The comparison of two values.
pub fn comparison_of(
    alloc: Global,
    left: Boxed<StExpr>,
    op: CmpOp,
    right: Boxed<StExpr>,
) -> Result<Boxed<StExpr>, Memory>
    ensures { IfOk result (λ e. view_expr e ≡ comparison (view_cmp op) (view_expr left) (view_expr right)) }
{
    match op {
        CmpOp::Eq => equality_of(alloc, left, true, right),
        CmpOp::Ne => equality_of(alloc, left, false, right),
        CmpOp::Lt => order_of(alloc, left, StOrder::Lt, right),
        CmpOp::Le => order_of(alloc, left, StOrder::Le, right),
        CmpOp::Gt => order_of(alloc, left, StOrder::Gt, right),
        CmpOp::Ge => order_of(alloc, left, StOrder::Ge, right),
    }
}

// ---- truth

/// The conjunction of those operands that are more than `TRUE`.
pub fn conjunction_of(alloc: Global, parts: Items<StExpr>) -> Result<Boxed<StExpr>, Memory>
    ensures { IfOk result (λ e. view_expr e ≡ conjunction (all_said (map view_expr parts))) }
{
    let mut said = said_parts(alloc, parts)?;
    if said.len() > 1 {
        return Boxed::new(alloc, StExpr::And(operands(alloc, said)?));
    }
    match said.pop() {
        Some(only) => Boxed::new(alloc, only),
        None => Boxed::new(alloc, StExpr::Bool(true)),
    }
}

/// The disjunction of those operands that are more than `FALSE`.
pub fn disjunction_of(alloc: Global, parts: Items<StExpr>) -> Result<Boxed<StExpr>, Memory>
    ensures { IfOk result (λ e. view_expr e ≡ disjunction (all_said_or (map view_expr parts))) }
{
    let mut said = said_alternatives(alloc, parts)?;
    if said.len() > 1 {
        return Boxed::new(alloc, StExpr::Or(operands(alloc, said)?));
    }
    match said.pop() {
        Some(only) => Boxed::new(alloc, only),
        None => Boxed::new(alloc, StExpr::Bool(false)),
    }
}

/// That one value implies another: `NOT a OR b`, and `TRUE` where the first is `FALSE`.
#[tactic(auto, using(crate::proofs::Shaping::implication_by))]
pub fn implication_of(
    alloc: Global,
    left: Boxed<StExpr>,
    right: Boxed<StExpr>,
) -> Result<Boxed<StExpr>, Memory>
    ensures { IfOk result (λ e. view_expr e ≡ implication (view_expr left) (view_expr right)) }
{
    if let Some(false) = literal_of(left.get()) {
        return Boxed::new(alloc, StExpr::Bool(true));
    }
    let mut parts = Items::only(alloc, negation_of(alloc, left)?.into_inner())?;
    parts.push(right.into_inner())?;
    disjunction_of(alloc, parts)
}

#[tactic(auto, using(crate::proofs::Shaping::said_kept, crate::proofs::Shaping::said_left))]
fn said_parts(alloc: Global, parts: Items<StExpr>) -> Result<Items<StExpr>, Memory>
    ensures { IfOk result (λ all. map view_expr all ≡ all_said (map view_expr parts)) }
{
    let mut all = Items::new(alloc);
    for part in parts.into_vec() {
        if says_more(&part) {
            all.push(part)?;
        }
    }
    Ok(all)
}

#[tactic(auto, using(crate::proofs::Shaping::said_or_kept, crate::proofs::Shaping::said_or_left))]
fn said_alternatives(alloc: Global, parts: Items<StExpr>) -> Result<Items<StExpr>, Memory>
    ensures { IfOk result (λ all. map view_expr all ≡ all_said_or (map view_expr parts)) }
{
    let mut all = Items::new(alloc);
    for part in parts.into_vec() {
        if says_more_or(&part) {
            all.push(part)?;
        }
    }
    Ok(all)
}

fn operands(alloc: Global, parts: Items<StExpr>) -> Result<Items<StExpr>, Memory>
    ensures { IfOk result (λ all. map view_expr all ≡ map operand (map view_expr parts)) }
{
    let mut all = Items::new(alloc);
    for part in parts.into_vec() {
        all.push(as_operand(alloc, Boxed::new(alloc, part)?)?.into_inner())?;
    }
    Ok(all)
}

// ---- functions of numbers

/// `ABS` of a number.
pub fn absolute_of(alloc: Global, e: Boxed<StExpr>) -> Result<Boxed<StExpr>, Memory>
    ensures { IfOk result (λ x. view_expr x ≡ absolute (view_expr e)) }
{
    Boxed::new(alloc, StExpr::Abs(e))
}

/// `MIN` of two numbers.
pub fn least_of(
    alloc: Global,
    left: Boxed<StExpr>,
    right: Boxed<StExpr>,
) -> Result<Boxed<StExpr>, Memory>
    ensures { IfOk result (λ x. view_expr x ≡ least (view_expr left) (view_expr right)) }
{
    Boxed::new(alloc, StExpr::Min(left, right))
}

/// `MAX` of two numbers.
pub fn greatest_of(
    alloc: Global,
    left: Boxed<StExpr>,
    right: Boxed<StExpr>,
) -> Result<Boxed<StExpr>, Memory>
    ensures { IfOk result (λ x. view_expr x ≡ greatest (view_expr left) (view_expr right)) }
{
    Boxed::new(alloc, StExpr::Max(left, right))
}

/// A further operand of a sum.
pub fn term_of(alloc: Global, minus: bool, e: Boxed<StExpr>) -> Result<Boxed<StTerm>, Memory>
    ensures { IfOk result (λ t. view_term t ≡ (minus, term (view_expr e))) }
{
    let value = as_term(alloc, e)?.into_inner();
    Boxed::new(alloc, StTerm { minus, value })
}

/// A further operand of a product.
pub fn factor_of(alloc: Global, op: MulOp, e: Boxed<StExpr>) -> Result<Boxed<StFactor>, Memory>
    ensures { IfOk result (λ f. view_factor f ≡ (mul_of (view_mul op), factor (view_expr e))) }
{
    let op = mul_sign(op);
    let value = as_factor(alloc, e)?.into_inner();
    Boxed::new(alloc, StFactor { op, value })
}

fn mul_sign(op: MulOp) -> StMul
    ensures { result ≡ mul_of (view_mul op) }
{
    match op {
        MulOp::Times => StMul::Times,
        MulOp::Div => StMul::Div,
        MulOp::Mod => StMul::Mod,
    }
}
