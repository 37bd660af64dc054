//! The value of an expression in a state (CIF 3 language reference, "Expressions").

ghost use Rattle.std.specs.Prelude.{◌≡◌, pos};
ghost use Rattle.cif_net_expr.specs.View.{view, view_form, view_exprs, view_terms, view_factors, view_branches};
ghost use Rattle.cif_net.specs.View.{state_tree};
ghost use Rattle.cif_net_model.specs.Value.{is_true, net_form_value, net_sum, net_product, net_all, net_any, net_cases};
ghost use Rattle.cif_net_model.specs.Safe.{value_at, IsSafe, IsSafeForm, AreSafeTerms, AreSafeFactors, AreSafeTruths, AreSafeBranches};
ghost use Rattle.cif_value.specs.Settings.{told};

use crate::operators::{
    absolute, added, compared, is_true, multiplied, negated, number, place_of, value_at,
};
use cif_net::State;
use cif_net_expr::{NetBranch, NetExpr, NetFactor, NetForm, NetTerm};

/// The value of an expression in a state, where that value is received; a boolean is 0 or 1, and an algebraic variable counts as 0. It
/// takes no memory.
pub fn eval(expr: &NetExpr, state: &State, received: i64) -> i64
    requires { IsSafe (told state.now received) (view expr.now) }
    ensures { result ≡ value_at (told state.now received) (view expr.now) }
{
    value_of(expr, state, received)
}

/// Whether a predicate holds in a state, where nothing is received. It takes no memory.
pub fn holds(predicate: &NetExpr, state: &State) -> bool
    requires { IsSafe (told state.now (pos 0)) (view predicate.now) }
    ensures { result ≡ is_true (value_at (told state.now (pos 0)) (view predicate.now)) }
{
    is_true(eval(predicate, state, 0))
}

#[cycle(values)]
fn value_of(expr: &NetExpr, state: &State, received: i64) -> i64
    requires { IsSafe (told state.now received) (view expr.now) }
    ensures { result ≡ value_at (told state.now received) (view expr.now) }
{
    form_value(&expr.form, state, received)
}

#[cycle(values)]
fn form_value(form: &NetForm, state: &State, received: i64) -> i64
    requires { IsSafeForm (told state.now received) (view_form form.now) }
    ensures { result ≡ net_form_value (λ k. pos 0) (state_tree state.now) received (view_form form.now) }
{
    match form {
        NetForm::Bool(b) => number(*b),
        NetForm::Int(n) => *n,
        &NetForm::Loc { auto, place } => number(place_of(state.locs.as_slice(), auto) == place),
        NetForm::Var(k) => value_at(state.vals.as_slice(), *k),
        NetForm::Input(k) => value_at(state.ins.as_slice(), *k),
        NetForm::Alg(_) => 0,
        NetForm::Received => received,
        NetForm::Neg(e) => negated(value_of(e.get(), state, received)),
        NetForm::Plus(e) => value_of(e.get(), state, received),
        NetForm::Not(e) => number(!is_true(value_of(e.get(), state, received))),
        NetForm::Abs(e) => absolute(value_of(e.get(), state, received)),
        NetForm::Min(a, b) => {
            let (a, b) = (
                value_of(a.get(), state, received),
                value_of(b.get(), state, received),
            );
            a.min(b)
        }
        NetForm::Max(a, b) => {
            let (a, b) = (
                value_of(a.get(), state, received),
                value_of(b.get(), state, received),
            );
            a.max(b)
        }
        NetForm::Sum { first, rest } => {
            let first = value_of(first.get(), state, received);
            sum_value(rest.as_slice(), first, state, received)
        }
        NetForm::Product { first, rest } => {
            let first = value_of(first.get(), state, received);
            product_value(rest.as_slice(), first, state, received)
        }
        NetForm::Compare { left, op, right } => {
            let left = value_of(left.get(), state, received);
            let right = value_of(right.get(), state, received);
            number(compared(*op, left, right))
        }
        NetForm::And(parts) => number(all_hold(parts.as_slice(), state, received)),
        NetForm::Or(parts) => number(any_holds(parts.as_slice(), state, received)),
        NetForm::Implies(a, b) => {
            let (a, b) = (
                value_of(a.get(), state, received),
                value_of(b.get(), state, received),
            );
            number(!is_true(a) || is_true(b))
        }
        NetForm::Iff(a, b) => {
            let (a, b) = (
                value_of(a.get(), state, received),
                value_of(b.get(), state, received),
            );
            number(a == b)
        }
        NetForm::If { branches, other } => {
            let other = value_of(other.get(), state, received);
            chosen_value(branches.as_slice(), other, state, received)
        }
    }
}

/// From left to right, after the first term.
#[cycle(values)]
fn sum_value(all: &[NetTerm], first: i64, state: &State, received: i64) -> i64
    requires { AreSafeTerms (told state.now received) first (view_terms all.now) }
    ensures { result ≡ net_sum (λ k. pos 0) (state_tree state.now) received first (view_terms all.now) }
{
    let mut sum = first;
    for term in all {
        sum = added(term.minus, sum, value_of(&term.value, state, received));
    }
    sum
}

/// From left to right, after the first factor.
#[cycle(values)]
fn product_value(all: &[NetFactor], first: i64, state: &State, received: i64) -> i64
    requires { AreSafeFactors (told state.now received) first (view_factors all.now) }
    ensures { result ≡ net_product (λ k. pos 0) (state_tree state.now) received first (view_factors all.now) }
{
    let mut product = first;
    for factor in all {
        product = multiplied(factor.op, product, value_of(&factor.value, state, received));
    }
    product
}

#[cycle(values)]
fn all_hold(all: &[NetExpr], state: &State, received: i64) -> bool
    requires { AreSafeTruths (told state.now received) (view_exprs all.now) }
    ensures { result ≡ net_all (λ k. pos 0) (state_tree state.now) received (view_exprs all.now) }
{
    for expr in all {
        if !is_true(value_of(expr, state, received)) {
            return false;
        }
    }
    true
}

#[cycle(values)]
fn any_holds(all: &[NetExpr], state: &State, received: i64) -> bool
    requires { AreSafeTruths (told state.now received) (view_exprs all.now) }
    ensures { result ≡ net_any (λ k. pos 0) (state_tree state.now) received (view_exprs all.now) }
{
    for expr in all {
        if is_true(value_of(expr, state, received)) {
            return true;
        }
    }
    false
}

/// The value of the first branch whose condition holds, and else `other`.
#[cycle(values)]
fn chosen_value(all: &[NetBranch], other: i64, state: &State, received: i64) -> i64
    requires { AreSafeBranches (told state.now received) (view_branches all.now) }
    ensures { result ≡ net_cases (λ k. pos 0) (state_tree state.now) received other (view_branches all.now) }
{
    for branch in all {
        if is_true(value_of(&branch.cond, state, received)) {
            return value_of(&branch.value, state, received);
        }
    }
    other
}
