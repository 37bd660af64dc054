//! Whether an expression names an input.

ghost use Rattle.std.specs.Prelude.{◌≡◌};
ghost use Rattle.std.specs.List.{list_any};
ghost use Rattle.cif_net_expr.specs.View.{view, view_form, view_exprs, view_terms, view_factors, view_branches};
ghost use Rattle.cif_net_model.specs.Reads.{is_input, names_in};
ghost use Rattle.cif_value.specs.Inputs.{has_input, form_has, terms_have, factors_have, exprs_have, branches_have};

use cif_net_expr::{NetBranch, NetExpr, NetFactor, NetForm, NetTerm};

/// Whether an expression names an input; of an algebraic variable its name alone is looked at. It takes no memory.
#[tactic(auto, using(crate::proofs::Named::input_named))]
pub fn reads_input(expr: &NetExpr) -> bool
    ensures { result ≡ list_any is_input (names_in (view expr.now)) }
{
    has_input(expr)
}

#[cycle(inputs)]
fn has_input(expr: &NetExpr) -> bool
    ensures { result ≡ has_input (view expr.now) }
{
    form_has(&expr.form)
}

#[cycle(inputs)]
fn form_has(form: &NetForm) -> bool
    ensures { result ≡ form_has (view_form form.now) }
{
    match form {
        NetForm::Input(_) => true,
        NetForm::Bool(_)
        | NetForm::Int(_)
        | NetForm::Loc { .. }
        | NetForm::Var(_)
        | NetForm::Alg(_)
        | NetForm::Received => false,
        NetForm::Neg(e) | NetForm::Plus(e) | NetForm::Not(e) | NetForm::Abs(e) => has_input(
            e.get(),
        ),
        NetForm::Min(a, b) | NetForm::Max(a, b) | NetForm::Implies(a, b) | NetForm::Iff(a, b) => {
            has_input(a.get()) || has_input(b.get())
        }
        NetForm::Compare { left, op: _, right } => has_input(left.get()) || has_input(right.get()),
        NetForm::Sum { first, rest } => has_input(first.get()) || terms_have(rest.as_slice()),
        NetForm::Product { first, rest } => has_input(first.get()) || factors_have(rest.as_slice()),
        NetForm::And(parts) | NetForm::Or(parts) => exprs_have(parts.as_slice()),
        NetForm::If { branches, other } => branches_have(branches.as_slice())
            || has_input(other.get()),
    }
}

#[cycle(inputs)]
fn terms_have(all: &[NetTerm]) -> bool
    ensures { result ≡ terms_have (view_terms all.now) }
{
    for term in all {
        if has_input(&term.value) {
            return true;
        }
    }
    false
}

#[cycle(inputs)]
fn factors_have(all: &[NetFactor]) -> bool
    ensures { result ≡ factors_have (view_factors all.now) }
{
    for factor in all {
        if has_input(&factor.value) {
            return true;
        }
    }
    false
}

#[cycle(inputs)]
fn exprs_have(all: &[NetExpr]) -> bool
    ensures { result ≡ exprs_have (view_exprs all.now) }
{
    for expr in all {
        if has_input(expr) {
            return true;
        }
    }
    false
}

#[cycle(inputs)]
fn branches_have(all: &[NetBranch]) -> bool
    ensures { result ≡ branches_have (view_branches all.now) }
{
    for branch in all {
        if has_input(&branch.cond) || has_input(&branch.value) {
            return true;
        }
    }
    false
}
