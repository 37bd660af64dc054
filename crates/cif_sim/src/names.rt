//! What expressions and updates name.

ghost use Rattle.std.specs.Prelude.{◌≡◌, ◌++◌, map, option_map, IfOk, OnOk};
ghost use Rattle.cif_net_expr.specs.View.{view, view_form, view_exprs, view_terms, view_factors, view_branches, view_update, view_updates, view_update_branches};
ghost use Rattle.cif_net_model.specs.Reads.{names_in, form_names, term_names, factor_names, list_names, branch_names};
ghost use Rattle.cif_net.specs.View.{choice_tree};
ghost use Rattle.cif_sim.specs.Names.{branches_names, choice_reads, name_read, sent_names, update_names, updates_names};

use cif_base::{Items, Memory};
use cif_net::{
    Choice, NetBranch, NetExpr, NetFactor, NetForm, NetTerm, NetUpdate, NetUpdateBranch,
};
use std::alloc::Global;

/// A variable, an input, an algebraic variable, the place of an automaton, or the received value.
#[derive(Clone, Copy)]
pub(crate) enum Name {
    Var(u32),
    Input(u32),
    Alg(u32),
    Place(u32),
    Received,
}

/// Adds what an expression names.
#[cycle(names)]
pub(crate) fn add_names(expr: &NetExpr, found: &mut Items<Name>) -> Result<(), Memory>
    ensures { OnOk result (map name_read found.new ≡ map name_read found.old ++ names_in (view expr.now)) }
{
    add_form(&expr.form, found)
}

#[cycle(names)]
fn add_form(form: &NetForm, found: &mut Items<Name>) -> Result<(), Memory>
    ensures { OnOk result (map name_read found.new ≡ map name_read found.old ++ form_names (view_form form.now)) }
{
    match form {
        NetForm::Bool(_) | NetForm::Int(_) => Ok(()),
        NetForm::Received => found.push(Name::Received),
        NetForm::Alg(k) => found.push(Name::Alg(*k)),
        &NetForm::Loc { auto, place: _ } => found.push(Name::Place(auto)),
        NetForm::Var(k) => found.push(Name::Var(*k)),
        NetForm::Input(k) => found.push(Name::Input(*k)),
        NetForm::Neg(e) | NetForm::Plus(e) | NetForm::Not(e) | NetForm::Abs(e) => {
            add_names(e.get(), found)
        }
        NetForm::Min(a, b) | NetForm::Max(a, b) | NetForm::Implies(a, b) | NetForm::Iff(a, b) => {
            add_names(a.get(), found)?;
            add_names(b.get(), found)
        }
        NetForm::Compare { left, op: _, right } => {
            add_names(left.get(), found)?;
            add_names(right.get(), found)
        }
        NetForm::Sum { first, rest } => {
            add_names(first.get(), found)?;
            add_terms(rest.as_slice(), found)
        }
        NetForm::Product { first, rest } => {
            add_names(first.get(), found)?;
            add_factors(rest.as_slice(), found)
        }
        NetForm::And(parts) | NetForm::Or(parts) => add_exprs(parts.as_slice(), found),
        NetForm::If { branches, other } => {
            add_branches(branches.as_slice(), found)?;
            add_names(other.get(), found)
        }
    }
}

#[cycle(names)]
fn add_terms(all: &[NetTerm], found: &mut Items<Name>) -> Result<(), Memory>
    ensures { OnOk result (map name_read found.new ≡ map name_read found.old ++ term_names (view_terms all.now)) }
{
    for term in all {
        add_names(&term.value, found)?;
    }
    Ok(())
}

#[cycle(names)]
fn add_factors(all: &[NetFactor], found: &mut Items<Name>) -> Result<(), Memory>
    ensures { OnOk result (map name_read found.new ≡ map name_read found.old ++ factor_names (view_factors all.now)) }
{
    for factor in all {
        add_names(&factor.value, found)?;
    }
    Ok(())
}

#[cycle(names)]
fn add_exprs(all: &[NetExpr], found: &mut Items<Name>) -> Result<(), Memory>
    ensures { OnOk result (map name_read found.new ≡ map name_read found.old ++ list_names (view_exprs all.now)) }
{
    for expr in all {
        add_names(expr, found)?;
    }
    Ok(())
}

#[cycle(names)]
fn add_branches(all: &[NetBranch], found: &mut Items<Name>) -> Result<(), Memory>
    ensures { OnOk result (map name_read found.new ≡ map name_read found.old ++ branch_names (view_branches all.now)) }
{
    for branch in all {
        add_names(&branch.cond, found)?;
        add_names(&branch.value, found)?;
    }
    Ok(())
}

/// Adds what the conditions and right sides of updates name.
#[cycle(updates)]
fn add_updates(updates: &[NetUpdate], found: &mut Items<Name>) -> Result<(), Memory>
    ensures { OnOk result (map name_read found.new ≡ map name_read found.old ++ updates_names (view_updates updates.now)) }
{
    for update in updates {
        add_update(update, found)?;
    }
    Ok(())
}

#[cycle(updates)]
fn add_update(update: &NetUpdate, found: &mut Items<Name>) -> Result<(), Memory>
    ensures { OnOk result (map name_read found.new ≡ map name_read found.old ++ update_names (view_update update.now)) }
{
    match update {
        NetUpdate::Set { var: _, value } => add_names(value, found),
        NetUpdate::If { branches, other } => {
            add_update_branches(branches.as_slice(), found)?;
            add_updates(other.as_slice(), found)
        }
    }
}

#[cycle(updates)]
fn add_update_branches(branches: &[NetUpdateBranch], found: &mut Items<Name>) -> Result<(), Memory>
    ensures { OnOk result (map name_read found.new ≡ map name_read found.old ++ branches_names (view_update_branches branches.now)) }
{
    for branch in branches {
        add_names(&branch.cond, found)?;
        add_updates(branch.updates.as_slice(), found)?;
    }
    Ok(())
}

/// Adds what a sent value names.
fn add_sent(sent: &Option<NetExpr>, found: &mut Items<Name>) -> Result<(), Memory>
    ensures { OnOk result (map name_read found.new ≡ map name_read found.old ++ sent_names (option_map view sent.now)) }
{
    match sent {
        Some(expr) => add_names(expr, found),
        None => Ok(()),
    }
}

/// What the test of a choice, its sent value and its updates name.
pub(crate) fn names_of(alloc: Global, choice: &Choice) -> Result<Items<Name>, Memory>
    ensures { IfOk result (λ names. map name_read names ≡ choice_reads (choice_tree choice.now)) }
{
    let mut found = Items::new(alloc);
    add_names(&choice.test, &mut found)?;
    add_sent(&choice.sent, &mut found)?;
    add_updates(choice.writes.as_slice(), &mut found)?;
    Ok(found)
}
