//! The algebraic variables that definitions name.

ghost use Rattle.std.specs.Prelude.{◌≡◌, ◌++◌, map, flat_map, IfOk, OnOk};
ghost use Rattle.cif_net.specs.View.{alg_tree};
ghost use Rattle.cif_net_expr.specs.View.{view, view_form, view_exprs, view_terms, view_factors, view_branches};
ghost use Rattle.cif_alg_order.specs.Names.{algs_in, form_algs, list_algs, term_algs, factor_algs, branch_algs, algs_of};

use cif_base::{Items, Memory};
use cif_net::{Alg, AlgValue};
use cif_net_expr::{NetBranch, NetExpr, NetFactor, NetForm, NetTerm};
use std::alloc::Global;

/// For each algebraic variable those that its definitions name, in the order of the text. One that is named twice stands there
/// twice.
pub fn named_by_each(alloc: Global, algs: &[Alg]) -> Result<Items<Items<u32>>, Memory>
    ensures { IfOk result (λ all. all ≡ map algs_of (map alg_tree algs.now)) }
{
    let mut all = Items::new(alloc);
    for alg in algs {
        all.push(named_by(alloc, alg)?)?;
    }
    Ok(all)
}

fn named_by(alloc: Global, alg: &Alg) -> Result<Items<u32>, Memory>
    ensures { IfOk result (λ found. found ≡ algs_of (alg_tree alg.now)) }
{
    let mut found = Items::new(alloc);
    match &alg.value {
        AlgValue::One(value) => add_names(value, &mut found)?,
        AlgValue::ByLoc { auto: _, values } => add_all_names(values.as_slice(), &mut found)?,
    }
    Ok(found)
}

fn add_all_names(all: &[NetExpr], found: &mut Items<u32>) -> Result<(), Memory>
    ensures { OnOk result (found.new ≡ found.old ++ flat_map algs_in (map view all.now)) }
{
    for expr in all {
        add_names(expr, found)?;
    }
    Ok(())
}

#[cycle(names)]
fn add_names(expr: &NetExpr, found: &mut Items<u32>) -> Result<(), Memory>
    ensures { OnOk result (found.new ≡ found.old ++ algs_in (view expr.now)) }
{
    add_form_names(&expr.form, found)
}

#[cycle(names)]
fn add_form_names(form: &NetForm, found: &mut Items<u32>) -> Result<(), Memory>
    ensures { OnOk result (found.new ≡ found.old ++ form_algs (view_form form.now)) }
{
    match form {
        NetForm::Bool(_)
        | NetForm::Int(_)
        | NetForm::Loc { .. }
        | NetForm::Var(_)
        | NetForm::Input(_)
        | NetForm::Received => Ok(()),
        NetForm::Alg(number) => found.push(*number),
        NetForm::Neg(e) | NetForm::Plus(e) | NetForm::Not(e) | NetForm::Abs(e) => {
            add_names(e.get(), found)
        }
        NetForm::Min(a, b) | NetForm::Max(a, b) | NetForm::Implies(a, b) | NetForm::Iff(a, b) => {
            add_names(a.get(), found)?;
            add_names(b.get(), found)
        }
        NetForm::Compare { left, op: _, right } => {
            add_names(left.get(), found)?;
            add_names(right.get(), found)
        }
        NetForm::Sum { first, rest } => {
            add_names(first.get(), found)?;
            add_term_names(rest.as_slice(), found)
        }
        NetForm::Product { first, rest } => {
            add_names(first.get(), found)?;
            add_factor_names(rest.as_slice(), found)
        }
        NetForm::And(parts) | NetForm::Or(parts) => add_list_names(parts.as_slice(), found),
        NetForm::If { branches, other } => {
            add_branch_names(branches.as_slice(), found)?;
            add_names(other.get(), found)
        }
    }
}

#[cycle(names)]
fn add_list_names(all: &[NetExpr], found: &mut Items<u32>) -> Result<(), Memory>
    ensures { OnOk result (found.new ≡ found.old ++ list_algs (view_exprs all.now)) }
{
    for expr in all {
        add_names(expr, found)?;
    }
    Ok(())
}

#[cycle(names)]
fn add_term_names(all: &[NetTerm], found: &mut Items<u32>) -> Result<(), Memory>
    ensures { OnOk result (found.new ≡ found.old ++ term_algs (view_terms all.now)) }
{
    for term in all {
        add_names(&term.value, found)?;
    }
    Ok(())
}

#[cycle(names)]
fn add_factor_names(all: &[NetFactor], found: &mut Items<u32>) -> Result<(), Memory>
    ensures { OnOk result (found.new ≡ found.old ++ factor_algs (view_factors all.now)) }
{
    for factor in all {
        add_names(&factor.value, found)?;
    }
    Ok(())
}

#[cycle(names)]
fn add_branch_names(all: &[NetBranch], found: &mut Items<u32>) -> Result<(), Memory>
    ensures { OnOk result (found.new ≡ found.old ++ branch_algs (view_branches all.now)) }
{
    for branch in all {
        add_names(&branch.cond, found)?;
        add_names(&branch.value, found)?;
    }
    Ok(())
}
