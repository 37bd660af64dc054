//! Copies of what expressions name, from one state to another.

ghost use Rattle.std.specs.Prelude.{◌≡◌};
ghost use Rattle.cif_net_expr.specs.View.{view, view_form, view_exprs, view_terms, view_factors, view_branches};
ghost use Rattle.cif_net.specs.View.{state_tree};
ghost use Rattle.cif_eval.specs.Copies.{copied_item, copied_expr, copied_form, copied_terms, copied_factors, copied_exprs, copied_branches};

use crate::storing::set_within;
use cif_base::Items;
use cif_net::{NetBranch, NetExpr, NetFactor, NetForm, NetTerm, State};

/// Copies an item, where both lists have one at that place.
fn copy_item<T: Copy>(from: &[T], to: &mut Items<T>, at: u32)
    ensures { to.new ≡ copied_item from.now to.old at }
{
    match from.get(at as usize) {
        Some(item) => set_within(to, at, *item),
        None => {}
    }
}

/// Copies what an expression names.
#[cycle(copying)]
pub(crate) fn copy_named(expr: &NetExpr, from: &State, to: &mut State)
    ensures { state_tree to.new ≡ copied_expr (view expr.now) (state_tree from.now) (state_tree to.old) }
{
    copy_form(&expr.form, from, to);
}

#[cycle(copying)]
fn copy_form(form: &NetForm, from: &State, to: &mut State)
    ensures { state_tree to.new ≡ copied_form (view_form form.now) (state_tree from.now) (state_tree to.old) }
{
    match form {
        NetForm::Bool(_) | NetForm::Int(_) | NetForm::Alg(_) | NetForm::Received => {}
        &NetForm::Loc { auto, place: _ } => copy_item(from.locs.as_slice(), &mut to.locs, auto),
        NetForm::Var(k) => copy_item(from.vals.as_slice(), &mut to.vals, *k),
        NetForm::Input(k) => copy_item(from.ins.as_slice(), &mut to.ins, *k),
        NetForm::Neg(e) | NetForm::Plus(e) | NetForm::Not(e) | NetForm::Abs(e) => copy_named(
            e.get(),
            from,
            to,
        ),
        NetForm::Min(a, b) | NetForm::Max(a, b) | NetForm::Implies(a, b) | NetForm::Iff(a, b) => {
            copy_named(a.get(), from, to);
            copy_named(b.get(), from, to);
        }
        NetForm::Compare { left, op: _, right } => {
            copy_named(left.get(), from, to);
            copy_named(right.get(), from, to);
        }
        NetForm::Sum { first, rest } => {
            copy_named(first.get(), from, to);
            copy_terms(rest.as_slice(), from, to);
        }
        NetForm::Product { first, rest } => {
            copy_named(first.get(), from, to);
            copy_factors(rest.as_slice(), from, to);
        }
        NetForm::And(parts) | NetForm::Or(parts) => copy_exprs(parts.as_slice(), from, to),
        NetForm::If { branches, other } => {
            copy_branches(branches.as_slice(), from, to);
            copy_named(other.get(), from, to);
        }
    }
}

#[cycle(copying)]
fn copy_terms(all: &[NetTerm], from: &State, to: &mut State)
    ensures { state_tree to.new ≡ copied_terms (view_terms all.now) (state_tree from.now) (state_tree to.old) }
{
    for term in all {
        copy_named(&term.value, from, to);
    }
}

#[cycle(copying)]
fn copy_factors(all: &[NetFactor], from: &State, to: &mut State)
    ensures { state_tree to.new ≡ copied_factors (view_factors all.now) (state_tree from.now) (state_tree to.old) }
{
    for factor in all {
        copy_named(&factor.value, from, to);
    }
}

#[cycle(copying)]
fn copy_exprs(all: &[NetExpr], from: &State, to: &mut State)
    ensures { state_tree to.new ≡ copied_exprs (view_exprs all.now) (state_tree from.now) (state_tree to.old) }
{
    for expr in all {
        copy_named(expr, from, to);
    }
}

#[cycle(copying)]
fn copy_branches(all: &[NetBranch], from: &State, to: &mut State)
    ensures { state_tree to.new ≡ copied_branches (view_branches all.now) (state_tree from.now) (state_tree to.old) }
{
    for branch in all {
        copy_named(&branch.cond, from, to);
        copy_named(&branch.value, from, to);
    }
}
