//! The interval of an expression.

ghost use Rattle.std.specs.Prelude.{◌≡◌, true, IfOk, IfErr};
ghost use Rattle.cif_net_model.specs.Interval.{as_range, range_of};
ghost use Rattle.cif_net_model.specs.Parts.{divides, is_narrow_expr};
ghost use Rattle.cif_net_expr.specs.View.{view, view_form, view_exprs, view_terms, view_factors, view_branches};
ghost use Rattle.cif_alg_measure.specs.Meanings.{ranges_of};
ghost use Rattle.cif_alg_measure.specs.Faults.{HasFault};
ghost use Rattle.cif_alg_measure.specs.Checked.{checked, checked_form, checked_sum, checked_product, checked_all, checked_cases};

use crate::error::WidthErr;
use crate::operators::{added, fitted, joined, known, multiplied, truths};
use crate::ranges::{Ranges, range_at};
use cif_base::Iv;
use cif_net_expr::{NetBranch, NetExpr, NetFactor, NetForm, NetTerm};

/// The interval of an expression, where no divisor in it may be 0 and the interval of each of its parts is in 64 bits. It takes
/// no memory.
pub fn interval(ranges: &Ranges, expr: &NetExpr) -> Result<Iv, WidthErr>
    ensures range { IfOk result (λ a. as_range a ≡ range_of (ranges_of ranges.now) (view expr.now)) }
    ensures divides { IfOk result (λ a. divides (ranges_of ranges.now) (view expr.now) ≡ true) }
    ensures narrow { IfOk result (λ a. is_narrow_expr (ranges_of ranges.now) (view expr.now) ≡ true) }
    ensures fault { IfErr result (λ e. HasFault (ranges_of ranges.now) (view expr.now) e) }
{
    interval_of(expr, ranges)
}

#[cycle(intervals)]
pub(crate) fn interval_of(expr: &NetExpr, ranges: &Ranges) -> Result<Iv, WidthErr>
    ensures { result ≡ checked (ranges_of ranges.now) (view expr.now) }
{
    form_interval(&expr.form, expr.at, ranges)
}

#[cycle(intervals)]
fn form_interval(form: &NetForm, at: u32, ranges: &Ranges) -> Result<Iv, WidthErr>
    ensures { result ≡ checked_form (ranges_of ranges.now) at (view_form form.now) }
{
    match form {
        NetForm::Bool(_) | NetForm::Loc { .. } => Ok(truths()),
        NetForm::Int(n) => known(Iv::point(*n), at),
        NetForm::Var(number) => known(range_at(ranges.vars, *number), at),
        NetForm::Input(number) => known(range_at(ranges.inputs, *number), at),
        NetForm::Alg(number) => known(range_at(ranges.algs, *number), at),
        NetForm::Received => known(ranges.received, at),
        NetForm::Neg(e) => fitted(interval_of(e.get(), ranges)?.neg(), at),
        NetForm::Plus(e) => interval_of(e.get(), ranges),
        NetForm::Not(e) => {
            interval_of(e.get(), ranges)?;
            Ok(truths())
        }
        NetForm::Abs(e) => fitted(interval_of(e.get(), ranges)?.abs(), at),
        NetForm::Min(a, b) => {
            let (a, b) = (interval_of(a.get(), ranges)?, interval_of(b.get(), ranges)?);
            fitted(a.min(b), at)
        }
        NetForm::Max(a, b) => {
            let (a, b) = (interval_of(a.get(), ranges)?, interval_of(b.get(), ranges)?);
            fitted(a.max(b), at)
        }
        NetForm::Sum { first, rest } => {
            let first = interval_of(first.get(), ranges)?;
            sum_interval(rest.as_slice(), first, at, ranges)
        }
        NetForm::Product { first, rest } => {
            let first = interval_of(first.get(), ranges)?;
            product_interval(rest.as_slice(), first, at, ranges)
        }
        NetForm::Compare { left, op: _, right } => {
            interval_of(left.get(), ranges)?;
            interval_of(right.get(), ranges)?;
            Ok(truths())
        }
        NetForm::And(parts) | NetForm::Or(parts) => truths_of(parts.as_slice(), ranges),
        NetForm::Implies(a, b) | NetForm::Iff(a, b) => {
            interval_of(a.get(), ranges)?;
            interval_of(b.get(), ranges)?;
            Ok(truths())
        }
        NetForm::If { branches, other } => {
            let other = interval_of(other.get(), ranges)?;
            cases_interval(branches.as_slice(), other, ranges)
        }
    }
}

/// The interval of what is made of several expressions and is a boolean.
#[cycle(intervals)]
fn truths_of(all: &[NetExpr], ranges: &Ranges) -> Result<Iv, WidthErr>
    ensures { result ≡ checked_all (ranges_of ranges.now) (view_exprs all.now) }
{
    for expr in all {
        interval_of(expr, ranges)?;
    }
    Ok(truths())
}

#[cycle(intervals)]
fn sum_interval(all: &[NetTerm], first: Iv, at: u32, ranges: &Ranges) -> Result<Iv, WidthErr>
    ensures { result ≡ checked_sum (ranges_of ranges.now) at first (view_terms all.now) }
{
    let mut sum = first;
    for term in all {
        sum = added(term.minus, sum, interval_of(&term.value, ranges)?, at)?;
    }
    Ok(sum)
}

#[cycle(intervals)]
fn product_interval(all: &[NetFactor], first: Iv, at: u32, ranges: &Ranges) -> Result<Iv, WidthErr>
    ensures { result ≡ checked_product (ranges_of ranges.now) at first (view_factors all.now) }
{
    let mut product = first;
    for factor in all {
        let value = interval_of(&factor.value, ranges)?;
        product = multiplied(factor.op, product, value, at, factor.value.at)?;
    }
    Ok(product)
}

/// The join of the branches of an `if`, `first` being the interval of its `else`.
#[cycle(intervals)]
fn cases_interval(all: &[NetBranch], first: Iv, ranges: &Ranges) -> Result<Iv, WidthErr>
    ensures { result ≡ checked_cases (ranges_of ranges.now) first (view_branches all.now) }
{
    let mut join = first;
    for branch in all {
        interval_of(&branch.cond, ranges)?;
        join = joined(interval_of(&branch.value, ranges)?, join);
    }
    Ok(join)
}
