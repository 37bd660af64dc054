//! The values of expressions (IEC 61131-3, "Expressions"), where a BOOL is 0 or 1. A value is handed on in registers and why
//! there is none in the caller's memory, since a `Result` of both would go through memory at each step.

ghost use Rattle.std.specs.Prelude.{◌≡◌, slice_index_or, pos, Ok};
ghost use Rattle.st_ast.specs.Values.{of_bool, is_true, same_number, divided, remainder};
ghost use Rattle.st_check.specs.PlacedTree.{of_term, of_factor, of_extreme, joined_none};
ghost use Rattle.st_scan.specs.PlacedValues.{value_at, steps_at, applied_to, applied, related, joined_with};
ghost use Rattle.st_check.specs.PlacedView.{expr_view, terms_view, factors_view, operands_view};
ghost use Rattle.st_scan.specs.Told.{told, or_overflow};

use st_ast::StMul;
use st_check::{Join, PlacedExpr, PlacedFactor, PlacedTerm, Relation, Single};

/// Why an expression has no value: a result outside 64 bits, or a divisor 0.
#[derive(Clone, Copy, Debug, PartialEq, Eq)]
pub enum ValueFault {
    Overflow,
    ZeroDivide,
}

/// The number of a BOOL.
#[inline(always)]
pub fn number(truth: bool) -> i64
    ensures { result ≡ of_bool truth }
{
    if truth { 1 } else { 0 }
}

/// Whether a value stands for TRUE.
#[inline(always)]
pub fn is_set(value: i64) -> bool
    ensures { result ≡ is_true value }
{
    value != 0
}

fn is_same(x: i64, y: i64) -> bool
    ensures { result ≡ same_number x y }
{
    x == y
}

/// The larger of two numbers, or the smaller.
#[inline(always)]
fn extreme(larger: bool, x: i64, y: i64) -> i64
    ensures { Ok result ≡ applied (of_extreme larger) x y }
{
    if larger == (x <= y) { y } else { x }
}

/// Whether one number stands so to another, or whether it doesn't.
#[inline(always)]
pub fn is_so(relation: Relation, holds: bool, x: i64, y: i64) -> bool
    ensures { result ≡ related relation holds x y }
{
    let so = match relation {
        Relation::Less => x < y,
        Relation::AtMost => x <= y,
        Relation::Equal => is_same(x, y),
    };
    if holds { so } else { !so }
}

/// A number, or an overflow where there is none.
#[inline(always)]
fn fitting(found: Option<i64>, fault: &mut ValueFault) -> Option<i64>
    ensures { told result fault.new ≡ or_overflow found }
{
    if found.is_none() {
        *fault = ValueFault::Overflow;
    }
    found
}

/// The quotient, rounded towards zero.
#[tactic(auto, using(crate::proofs::Checked::checks))]
fn divide(x: i64, y: i64, fault: &mut ValueFault) -> Option<i64>
    ensures { told result fault.new ≡ divided 64 x y }
{
    if is_same(y, 0) {
        *fault = ValueFault::ZeroDivide;
        return None;
    }
    fitting(x.checked_div(y), fault)
}

/// What is left by a division, with the sign of the dividend, and 0 where the divisor is 0.
fn remainder_of(x: i64, y: i64) -> i64
    ensures { result ≡ remainder x y }
{
    if is_same(y, 0) { 0 } else { x.wrapping_rem(y) }
}

#[tactic(auto, using(crate::proofs::Checked::checks))]
fn apply_to(op: Single, x: i64, fault: &mut ValueFault) -> Option<i64>
    ensures { told result fault.new ≡ applied_to op x }
{
    match op {
        Single::Minus => fitting(x.checked_neg(), fault),
        Single::Not => Some(number(!is_set(x))),
        Single::Absolute => fitting(x.checked_abs(), fault),
    }
}

/// A sum, or a difference.
#[inline(always)]
#[tactic(auto, using(crate::proofs::Checked::checks))]
fn add(minus: bool, x: i64, y: i64, fault: &mut ValueFault) -> Option<i64>
    ensures { told result fault.new ≡ applied (of_term minus) x y }
{
    if minus {
        fitting(x.checked_sub(y), fault)
    } else {
        fitting(x.checked_add(y), fault)
    }
}

#[inline(always)]
#[tactic(auto, using(crate::proofs::Checked::checks))]
fn multiply(op: StMul, x: i64, y: i64, fault: &mut ValueFault) -> Option<i64>
    ensures { told result fault.new ≡ applied (of_factor op) x y }
{
    match op {
        StMul::Times => fitting(x.checked_mul(y), fault),
        StMul::Div => divide(x, y, fault),
        StMul::Mod => Some(remainder_of(x, y)),
    }
}

#[inline(always)]
fn join_with(join: Join, so_far: bool, next: bool) -> bool
    ensures { result ≡ joined_with join so_far next }
{
    match join {
        Join::And => so_far & next,
        Join::Xor => so_far ^ next,
        Join::Or => so_far | next,
    }
}

/// What no operand comes to.
fn of_none(join: Join) -> bool
    ensures { result ≡ joined_none join }
{
    match join {
        Join::And => true,
        Join::Xor => false,
        Join::Or => false,
    }
}

/// The number at a place, and 0 beyond the memory.
#[inline(always)]
pub fn read(memory: &[i64], place: u32) -> i64
    ensures { result ≡ slice_index_or memory.now place (pos 0) }
{
    match memory.get(place as usize) {
        Some(value) => *value,
        None => 0,
    }
}

/// The value of an expression, or why it has none. Every operand is evaluated, from left to right.
#[cycle(values)]
#[inline(always)]
pub fn value(expr: &PlacedExpr, memory: &[i64], fault: &mut ValueFault) -> Option<i64>
    ensures { told result fault.new ≡ value_at (expr_view expr.now) memory.now }
{
    match expr {
        PlacedExpr::Number(number) => Some(*number),
        PlacedExpr::Place(place) => Some(read(memory, *place)),
        operation => value_of(operation, memory, fault),
    }
}

#[cycle(values)]
fn value_of(expr: &PlacedExpr, memory: &[i64], fault: &mut ValueFault) -> Option<i64>
    ensures { told result fault.new ≡ value_at (expr_view expr.now) memory.now }
{
    match expr {
        PlacedExpr::Number(number) => Some(*number),
        PlacedExpr::Place(place) => Some(read(memory, *place)),
        PlacedExpr::Single { op, operand } => {
            let x = value(operand.get(), memory, fault)?;
            apply_to(*op, x, fault)
        }
        PlacedExpr::Sum(operands) => {
            let operands = operands.get();
            let x = value(&operands.first, memory, fault)?;
            sum(operands.rest.as_slice(), x, memory, fault)
        }
        PlacedExpr::Product(operands) => {
            let operands = operands.get();
            let x = value(&operands.first, memory, fault)?;
            product(operands.rest.as_slice(), x, memory, fault)
        }
        PlacedExpr::Joined { join, operands } => {
            joined(*join, operands.get().all.as_slice(), memory, fault)
        }
        PlacedExpr::Related {
            is,
            holds,
            operands,
        } => {
            let operands = operands.get();
            let x = value(&operands.first, memory, fault)?;
            let y = value(&operands.second, memory, fault)?;
            Some(number(is_so(*is, *holds, x, y)))
        }
        PlacedExpr::Extreme { larger, operands } => {
            let operands = operands.get();
            let x = value(&operands.first, memory, fault)?;
            let y = value(&operands.second, memory, fault)?;
            Some(extreme(*larger, x, y))
        }
        PlacedExpr::Select(operands) => {
            let operands = operands.get();
            let chosen = is_set(value(&operands.condition, memory, fault)?);
            let x = value(&operands.otherwise, memory, fault)?;
            let y = value(&operands.then, memory, fault)?;
            Some(if chosen { y } else { x })
        }
    }
}

/// A sum, from its first operand on.
#[cycle(values)]
#[inline(always)]
fn sum(terms: &[PlacedTerm], first: i64, memory: &[i64], fault: &mut ValueFault) -> Option<i64>
    ensures { told result fault.new ≡ steps_at first (terms_view terms.now) memory.now }
{
    let mut so_far = first;
    for term in terms {
        let x = value(&term.value, memory, fault)?;
        so_far = add(term.minus, so_far, x, fault)?;
    }
    Some(so_far)
}

/// A product, from its first operand on.
#[cycle(values)]
#[inline(always)]
fn product(
    factors: &[PlacedFactor],
    first: i64,
    memory: &[i64],
    fault: &mut ValueFault,
) -> Option<i64>
    ensures { told result fault.new ≡ steps_at first (factors_view factors.now) memory.now }
{
    let mut so_far = first;
    for factor in factors {
        let x = value(&factor.value, memory, fault)?;
        so_far = multiply(factor.op, so_far, x, fault)?;
    }
    Some(so_far)
}

/// The operands of one level as a BOOL.
#[cycle(values)]
#[inline(always)]
fn joined(
    join: Join,
    operands: &[PlacedExpr],
    memory: &[i64],
    fault: &mut ValueFault,
) -> Option<i64>
    ensures { told result fault.new
        ≡ steps_at (of_bool (joined_none join)) (operands_view join operands.now) memory.now }
{
    let mut so_far = of_none(join);
    for operand in operands {
        let x = value(operand, memory, fault)?;
        so_far = join_with(join, so_far, is_set(x));
    }
    Some(number(so_far))
}
