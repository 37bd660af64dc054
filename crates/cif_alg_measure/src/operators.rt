//! Intervals of 64 bits from those of operands, or why there is none.

ghost use Rattle.std.specs.Prelude.{◌≡◌, Ok};
ghost use Rattle.cif_base.specs.Bounds.{join_bounds, within_64};
ghost use Rattle.cif_net_expr.specs.View.{view_mul};
ghost use Rattle.cif_alg_measure.specs.Checked.{truth_bounds, fitted, by_divisor, added, multiplied};

use crate::error::WidthErr;
use cif_base::Iv;
use cif_net_expr::MulOp;

/// That of booleans.
pub(crate) fn truths() -> Iv
    ensures { result ≡ truth_bounds }
{
    Iv::new(0, 1)
}

/// The interval of the part that begins at `at`, where it is in 64 bits.
pub(crate) fn fitted(found: Option<Iv>, at: u32) -> Result<Iv, WidthErr>
    ensures { result ≡ fitted at found }
{
    match found {
        Some(interval) => Ok(interval),
        None => Err(WidthErr::TooWide { at }),
    }
}

/// The interval of a part without operands, which is in 64 bits.
pub(crate) fn known(range: Iv, at: u32) -> Result<Iv, WidthErr>
    ensures { result ≡ fitted at (within_64 range) }
{
    fitted(range.join(range), at)
}

/// The interval of a quotient or a remainder that begins at `at`, by a divisor that begins at `divisor_at`.
fn by_divisor(found: Option<Iv>, divisor: Iv, at: u32, divisor_at: u32) -> Result<Iv, WidthErr>
    ensures { result ≡ by_divisor at divisor_at divisor found }
{
    if divisor.contains(0) {
        Err(WidthErr::ZeroDivisor { at: divisor_at })
    } else {
        fitted(found, at)
    }
}

/// The interval of a sum that begins at `at`, or of a difference, with one operand more.
pub(crate) fn added(minus: bool, sum: Iv, term: Iv, at: u32) -> Result<Iv, WidthErr>
    ensures { result ≡ fitted at (within_64 (added minus sum term)) }
{
    if minus {
        fitted(sum.sub(term), at)
    } else {
        fitted(sum.add(term), at)
    }
}

/// The interval of a product that begins at `at`, with one operand more, which begins at `factor_at`.
pub(crate) fn multiplied(
    op: MulOp,
    product: Iv,
    factor: Iv,
    at: u32,
    factor_at: u32,
) -> Result<Iv, WidthErr>
    ensures { result ≡ multiplied (view_mul op) at factor_at product factor }
{
    match op {
        MulOp::Times => fitted(product.mul(factor), at),
        MulOp::Div => by_divisor(product.div(factor), factor, at, factor_at),
        MulOp::Mod => by_divisor(product.rem(factor), factor, at, factor_at),
    }
}

/// The least interval round both.
pub(crate) fn joined(a: Iv, b: Iv) -> Iv
    ensures { result ≡ join_bounds a b }
{
    Iv::new(a.lo().min(b.lo()), a.hi().max(b.hi()))
}
