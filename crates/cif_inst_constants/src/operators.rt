//! Operators on numbers of 64 bits, which give `None` where the result leaves 64 bits or a divisor is 0.

ghost use Rattle.std.specs.Prelude.{◌≡◌, ◌≢◌, ℤ, pos, neg_ℤ, nat_abs, int_div, int_rem};
ghost use Rattle.std.specs.Ordering.{int_eq};
ghost use Rattle.std.specs.Int.{int_min, int_max};
ghost use Rattle.cif_source.specs.Value as value;
ghost use Rattle.cif_inst_constants.specs.Checked.{checked, unless_zero, multiplied_checked};

use cif_ast::{CmpOp, MulOp};

/// The number of a boolean.
pub fn number(truth: bool) -> i64
    ensures { result ≡ value.of_bool truth }
{
    if truth { 1 } else { 0 }
}

/// Whether a number stands for `true`.
pub fn is_true(x: i64) -> bool
    ensures { result ≡ value.is_true x }
{
    x == 1
}

pub fn equal(x: i64, y: i64) -> bool
    ensures { result ≡ int_eq x y }
{
    x == y
}

pub fn compared(op: CmpOp, x: i64, y: i64) -> bool
    ensures { result ≡ value.compared op x y }
{
    match op {
        CmpOp::Eq => equal(x, y),
        CmpOp::Ne => !equal(x, y),
        CmpOp::Lt => x < y,
        CmpOp::Le => x <= y,
        CmpOp::Gt => x > y,
        CmpOp::Ge => x >= y,
    }
}

#[tactic(auto, using(crate::proofs::CheckedLaws::checks))]
pub fn negated(x: i64) -> Option<i64>
    ensures { result ≡ checked (neg_ℤ x) }
{
    x.checked_neg()
}

#[tactic(auto, using(crate::proofs::CheckedLaws::checks))]
pub fn absolute(x: i64) -> Option<i64>
    ensures { result ≡ checked (pos (nat_abs x)) }
{
    x.checked_abs()
}

pub fn least(x: i64, y: i64) -> i64
    ensures { result ≡ int_min x y }
{
    x.min(y)
}

pub fn greatest(x: i64, y: i64) -> i64
    ensures { result ≡ int_max x y }
{
    x.max(y)
}

/// A sum, or a difference.
#[tactic(auto, using(crate::proofs::CheckedLaws::checks))]
pub fn added(minus: bool, x: i64, y: i64) -> Option<i64>
    ensures { result ≡ checked (value.added minus x y) }
{
    if minus {
        x.checked_sub(y)
    } else {
        x.checked_add(y)
    }
}

/// The quotient, truncated towards 0.
#[tactic(auto, using(crate::proofs::CheckedLaws::checks))]
fn divided(x: i64, y: i64) -> Option<i64>
    ensures { result ≡ unless_zero y (int_div x y) }
{
    if equal(y, 0) { None } else { x.checked_div(y) }
}

/// What is left by a division, with the sign of the dividend.
#[tactic(auto, using(crate::proofs::CheckedLaws::checks))]
fn remainder(x: i64, y: i64) -> Option<i64>
    ensures { result ≡ unless_zero y (int_rem x y) }
{
    if equal(y, 0) {
        None
    } else {
        Some(x.wrapping_rem(y))
    }
}

#[tactic(auto, using(crate::proofs::CheckedLaws::checks))]
pub fn multiplied(op: MulOp, x: i64, y: i64) -> Option<i64>
    ensures { result ≡ multiplied_checked op x y }
{
    match op {
        MulOp::Times => x.checked_mul(y),
        MulOp::Div => divided(x, y),
        MulOp::Mod => remainder(x, y),
    }
}
