//! The values of expressions, every operand evaluated.

ghost use Rattle.std.specs.Prelude.{◌≡◌, true, false, None};
ghost use Rattle.cif_ast.specs.View.{view, view_form, view_exprs, view_terms, view_factors, view_branches};
ghost use Rattle.cif_source.specs.Source.{tree_at};
ghost use Rattle.cif_inst_constants.specs.Computed.{or_first, computed, shape_computed, terms_computed, factors_computed, all_computed, any_computed, branches_computed};
ghost use Rattle.cif_inst_constants.specs.Named.{name_value};
ghost use Rattle.cif_inst_constants.specs.Outcomes.{evaluated};

use crate::names::NameValues;
use crate::operators::{
    absolute, added, compared, equal, greatest, is_true, least, multiplied, negated, number,
};
use cif_ast::{Branch, Expr, Factor, Form, Term};

#[cycle(evaluating)]
fn computed(expr: &Expr, names: &NameValues<'_>) -> Option<i64>
    ensures { result ≡ computed (name_value names.now) (view expr.now) }
{
    form_computed(&expr.form, names)
}

#[cycle(evaluating)]
#[tactic(auto, using(crate::proofs::CheckedLaws::checks))]
fn form_computed(form: &Form, names: &NameValues<'_>) -> Option<i64>
    ensures { result ≡ shape_computed (name_value names.now) (view_form form.now) }
{
    match form {
        Form::Bool(truth) => Some(number(*truth)),
        Form::Int(value) => Some(*value),
        Form::Named(name) => Some(names.of(name)),
        Form::Received => Some(0),
        Form::Paren(e) | Form::Plus(e) => computed(e.get(), names),
        Form::Neg(e) => negated(computed(e.get(), names)?),
        Form::Not(e) => Some(number(!is_true(computed(e.get(), names)?))),
        Form::Abs(e) => absolute(computed(e.get(), names)?),
        Form::Min(a, b) => {
            let x = computed(a.get(), names)?;
            Some(least(x, computed(b.get(), names)?))
        }
        Form::Max(a, b) => {
            let x = computed(a.get(), names)?;
            Some(greatest(x, computed(b.get(), names)?))
        }
        Form::Sum { first, rest } => {
            sum_computed(rest.as_slice(), computed(first.get(), names)?, names)
        }
        Form::Product { first, rest } => {
            product_computed(rest.as_slice(), computed(first.get(), names)?, names)
        }
        Form::Compare { left, op, right } => {
            let x = computed(left.get(), names)?;
            Some(number(compared(*op, x, computed(right.get(), names)?)))
        }
        Form::And(parts) => Some(number(all_computed(parts.as_slice(), names)?)),
        Form::Or(parts) => Some(number(any_computed(parts.as_slice(), names)?)),
        Form::Implies(a, b) => {
            let x = is_true(computed(a.get(), names)?);
            let y = is_true(computed(b.get(), names)?);
            Some(number(!x || y))
        }
        Form::Iff(a, b) => {
            let x = computed(a.get(), names)?;
            Some(number(equal(x, computed(b.get(), names)?)))
        }
        Form::If { branches, other } => {
            let chosen = branches_computed(branches.as_slice(), names)?;
            let z = computed(other.get(), names)?;
            Some(chosen.unwrap_or(z))
        }
    }
}

/// A sum from its first operand on.
#[cycle(evaluating)]
fn sum_computed(rest: &[Term], first: i64, names: &NameValues<'_>) -> Option<i64>
    ensures { result ≡ terms_computed (name_value names.now) first (view_terms rest.now) }
{
    let mut sum = first;
    for term in rest {
        let x = computed(&term.value, names)?;
        sum = added(term.minus, sum, x)?;
    }
    Some(sum)
}

/// A product from its first operand on.
#[cycle(evaluating)]
fn product_computed(rest: &[Factor], first: i64, names: &NameValues<'_>) -> Option<i64>
    ensures { result ≡ factors_computed (name_value names.now) first (view_factors rest.now) }
{
    let mut product = first;
    for factor in rest {
        let x = computed(&factor.value, names)?;
        product = multiplied(factor.op, product, x)?;
    }
    Some(product)
}

/// Whether all hold.
#[cycle(evaluating)]
fn all_computed(parts: &[Expr], names: &NameValues<'_>) -> Option<bool>
    ensures { result ≡ all_computed (name_value names.now) true (view_exprs parts.now) }
{
    let mut all = true;
    for part in parts {
        let holds = is_true(computed(part, names)?);
        all = all && holds;
    }
    Some(all)
}

/// Whether some hold.
#[cycle(evaluating)]
fn any_computed(parts: &[Expr], names: &NameValues<'_>) -> Option<bool>
    ensures { result ≡ any_computed (name_value names.now) false (view_exprs parts.now) }
{
    let mut any = false;
    for part in parts {
        let holds = is_true(computed(part, names)?);
        any = any || holds;
    }
    Some(any)
}

/// The value unless there is one before, where the conditions hold.
fn first_chosen(before: Option<i64>, holds: bool, value: i64) -> Option<i64>
    ensures { result ≡ or_first before holds value }
{
    match before {
        Some(chosen) => Some(chosen),
        None => { if holds { Some(value) } else { None } }
    }
}

/// The value of the first branch whose conditions hold.
#[cycle(evaluating)]
fn branches_computed(branches: &[Branch], names: &NameValues<'_>) -> Option<Option<i64>>
    ensures { result ≡ branches_computed (name_value names.now) None (view_branches branches.now) }
{
    let mut chosen = None;
    for branch in branches {
        let holds = all_computed(branch.conds.as_slice(), names)?;
        let value = computed(&branch.value, names)?;
        chosen = first_chosen(chosen, holds, value);
    }
    Some(chosen)
}

/// The value of an expression, or `None` where some value in it leaves 64 bits or some divisor is 0, every operand evaluated.
#[tactic(auto, using(crate::proofs::FaultLaws::computed_is))]
pub fn evaluate(expr: &Expr, names: &NameValues<'_>) -> Option<i64>
    ensures { result ≡ evaluated (name_value names.now) (view expr.now) }
{
    computed(expr, names)
}

/// Where an expression begins.
pub fn place(expr: &Expr) -> u32
    ensures { result ≡ tree_at (view expr.now) }
{
    expr.at
}
