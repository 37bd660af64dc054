//! Values of operators, where each is in 64 bits.

ghost use Rattle.std.specs.Prelude.{◌≡◌, pos, neg_ℤ, nat_abs, slice_index_or};
ghost use Rattle.cif_net_expr.specs.View.{view_cmp, view_mul};
ghost use Rattle.cif_net_model.specs.Value.{of_bool, is_true, compared, added, multiplied};
ghost use Rattle.cif_net_model.specs.Safe.{HasBits, CanDivide};

use cif_net_expr::{CmpOp, MulOp};

/// The number of a boolean.
pub(crate) fn number(truth: bool) -> i64
    ensures { result ≡ of_bool truth }
{
    if truth { 1 } else { 0 }
}

/// Whether a value stands for true.
pub(crate) fn is_true(value: i64) -> bool
    ensures { result ≡ is_true value }
{
    value == 1
}

/// The value with this number.
pub(crate) fn value_at(values: &[i64], number: u32) -> i64
    ensures { result ≡ slice_index_or values.now number (pos 0) }
{
    match values.get(number as usize) {
        Some(value) => *value,
        None => 0,
    }
}

/// The place of an automaton.
pub(crate) fn place_of(places: &[u32], auto: u32) -> u32
    ensures { result ≡ slice_index_or places.now auto 0 }
{
    match places.get(auto as usize) {
        Some(place) => *place,
        None => 0,
    }
}

pub(crate) fn negated(x: i64) -> i64
    requires { HasBits (neg_ℤ x) }
    ensures { result ≡ neg_ℤ x }
{
    -x
}

pub(crate) fn absolute(x: i64) -> i64
    requires { HasBits (pos (nat_abs x)) }
    ensures { result ≡ pos (nat_abs x) }
{
    x.abs()
}

/// A sum, or a difference.
pub(crate) fn added(minus: bool, x: i64, y: i64) -> i64
    requires { HasBits (added minus x y) }
    ensures { result ≡ added minus x y }
{
    if minus { x - y } else { x + y }
}

/// A product, a quotient rounded towards zero, or what the division leaves.
pub(crate) fn multiplied(op: MulOp, x: i64, y: i64) -> i64
    requires divisor { CanDivide (view_mul op) y }
    requires bits { HasBits (multiplied (view_mul op) x y) }
    ensures { result ≡ multiplied (view_mul op) x y }
{
    match op {
        MulOp::Times => x * y,
        MulOp::Div => x / y,
        MulOp::Mod => x.wrapping_rem(y),
    }
}

pub(crate) fn compared(op: CmpOp, x: i64, y: i64) -> bool
    ensures { result ≡ compared (view_cmp op) x y }
{
    match op {
        CmpOp::Eq => x == y,
        CmpOp::Ne => x != y,
        CmpOp::Lt => x < y,
        CmpOp::Le => x <= y,
        CmpOp::Gt => x > y,
        CmpOp::Ge => x >= y,
    }
}
