//! Expressions of a net as Structured Text (CIF 3 language reference, "Expressions"; IEC 61131-3, "Expressions").

ghost use Rattle.std.specs.Prelude.{◌≡◌, ◌+◌, map, IfOk, OnOk};
ghost use Rattle.cif_net_expr.specs.View.{view, view_branches, view_exprs, view_factors, view_form, view_terms};
ghost use Rattle.st_ast.specs.Tree.{append, named, no_stms, stms};
ghost use Rattle.st_ast.specs.View.{view_expr, view_stmts};
ghost use Rattle.st_ast.specs.View as st;
ghost use Rattle.plc_expr.specs.Texts as t;
ghost use Rattle.plc_expr.specs.Written.{naming_of};

use crate::choosing::{branch_of, case_of};
use crate::negating::negation_of;
use cif_base::{Boxed, Items, Memory, Text};
use cif_net_expr::{NetBranch, NetExpr, NetFactor, NetForm, NetTerm};
use plc_expr::{
    Draft, Names, absolute_of, comparison_of, conjunction_of, disjunction_of, equality_of,
    factor_of, greatest_of, implication_of, least_of, minus_of, number_of, product_of, sum_of,
    term_of,
};
use st_ast::{StBranch, StExpr, StFactor, StTerm};
use std::alloc::Global;

/// The text of an expression; the statements before it are added to the draft. The own variables are numbered from the draft's
/// next number on, in the order of the text. A number that runs out is want of memory. The time is linear in the expression
/// and in what is written.
#[cycle(walk)]
pub fn written(
    expr: &NetExpr,
    alloc: Global,
    names: &Names,
    draft: &mut Draft,
) -> Result<Boxed<StExpr>, Memory>
    ensures text { IfOk result
        (λ e. view_expr e ≡ t.text (naming_of names.now) draft.old.next (view expr.now)) }
    ensures next { OnOk result (draft.new.next ≡ draft.old.next + t.temps (view expr.now)) }
    ensures before { OnOk result (view_stmts draft.new.statements
        ≡ append (view_stmts draft.old.statements) (t.before (naming_of names.now) draft.old.next (view expr.now))) }
{
    form_written(&expr.form, alloc, names, draft)
}

#[cycle(walk)]
fn form_written(
    form: &NetForm,
    alloc: Global,
    names: &Names,
    draft: &mut Draft,
) -> Result<Boxed<StExpr>, Memory>
    ensures text { IfOk result
        (λ e. view_expr e ≡ t.form_text (naming_of names.now) draft.old.next (view_form form.now)) }
    ensures next { OnOk result (draft.new.next ≡ draft.old.next + t.form_temps (view_form form.now)) }
    ensures before { OnOk result (view_stmts draft.new.statements
        ≡ append (view_stmts draft.old.statements) (t.form_before (naming_of names.now) draft.old.next (view_form form.now))) }
{
    match form {
        NetForm::Bool(b) => Boxed::new(alloc, StExpr::Bool(*b)),
        NetForm::Int(value) => number_of(alloc, *value),
        NetForm::Loc { auto, place } => names.located(alloc, *auto, *place),
        NetForm::Var(number) => names.variable(alloc, *number),
        NetForm::Input(number) => names.input(alloc, *number),
        NetForm::Alg(_) => Boxed::new(alloc, StExpr::Bool(true)),
        NetForm::Received => names.received(alloc),
        NetForm::Neg(e) => minus_of(alloc, written(e.get(), alloc, names, draft)?),
        NetForm::Plus(e) => written(e.get(), alloc, names, draft),
        NetForm::Not(e) => negation_of(alloc, written(e.get(), alloc, names, draft)?),
        NetForm::Abs(e) => absolute_of(alloc, written(e.get(), alloc, names, draft)?),
        NetForm::Min(a, b) => {
            let left = written(a.get(), alloc, names, draft)?;
            let right = written(b.get(), alloc, names, draft)?;
            least_of(alloc, left, right)
        }
        NetForm::Max(a, b) => {
            let left = written(a.get(), alloc, names, draft)?;
            let right = written(b.get(), alloc, names, draft)?;
            greatest_of(alloc, left, right)
        }
        NetForm::Sum { first, rest } => {
            let first = written(first.get(), alloc, names, draft)?;
            sum_of(
                alloc,
                first,
                terms_written(rest.as_slice(), alloc, names, draft)?,
            )
        }
        NetForm::Product { first, rest } => {
            let first = written(first.get(), alloc, names, draft)?;
            product_of(
                alloc,
                first,
                factors_written(rest.as_slice(), alloc, names, draft)?,
            )
        }
        NetForm::Compare { left, op, right } => {
            let left = written(left.get(), alloc, names, draft)?;
            let right = written(right.get(), alloc, names, draft)?;
            comparison_of(alloc, left, *op, right)
        }
        NetForm::And(parts) => {
            conjunction_of(alloc, list_written(parts.as_slice(), alloc, names, draft)?)
        }
        NetForm::Or(parts) => {
            disjunction_of(alloc, list_written(parts.as_slice(), alloc, names, draft)?)
        }
        NetForm::Implies(a, b) => {
            let left = written(a.get(), alloc, names, draft)?;
            let right = written(b.get(), alloc, names, draft)?;
            implication_of(alloc, left, right)
        }
        NetForm::Iff(a, b) => {
            let left = written(a.get(), alloc, names, draft)?;
            let right = written(b.get(), alloc, names, draft)?;
            equality_of(alloc, left, true, right)
        }
        NetForm::If { branches, other } => {
            let name = own_name(alloc, names, draft)?;
            let cases = branches_written(branches.as_slice(), &name, alloc, names, draft)?;
            let value = written(other.get(), alloc, names, draft)?;
            case_added(alloc, name, cases, value, draft)
        }
    }
}

#[cycle(walk)]
fn list_written(
    parts: &[NetExpr],
    alloc: Global,
    names: &Names,
    draft: &mut Draft,
) -> Result<Items<StExpr>, Memory>
    ensures text { IfOk result
        (λ all. map view_expr all ≡ t.texts (naming_of names.now) draft.old.next (view_exprs parts.now)) }
    ensures next { OnOk result (draft.new.next ≡ draft.old.next + t.list_temps (view_exprs parts.now)) }
    ensures before { OnOk result (view_stmts draft.new.statements
        ≡ append (view_stmts draft.old.statements) (t.list_before (naming_of names.now) draft.old.next (view_exprs parts.now))) }
{
    let mut all = Items::new(alloc);
    for part in parts {
        let text = written(part, alloc, names, draft)?;
        all.push(text.into_inner())?;
    }
    Ok(all)
}

#[cycle(walk)]
fn terms_written(
    parts: &[NetTerm],
    alloc: Global,
    names: &Names,
    draft: &mut Draft,
) -> Result<Items<StTerm>, Memory>
    ensures text { IfOk result
        (λ all. st.view_terms all ≡ t.terms_text (naming_of names.now) draft.old.next (view_terms parts.now)) }
    ensures next { OnOk result (draft.new.next ≡ draft.old.next + t.terms_temps (view_terms parts.now)) }
    ensures before { OnOk result (view_stmts draft.new.statements
        ≡ append (view_stmts draft.old.statements) (t.terms_before (naming_of names.now) draft.old.next (view_terms parts.now))) }
{
    let mut all = Items::new(alloc);
    for part in parts {
        let text = written(&part.value, alloc, names, draft)?;
        let term = term_of(alloc, part.minus, text)?;
        all.push(term.into_inner())?;
    }
    Ok(all)
}

#[cycle(walk)]
fn factors_written(
    parts: &[NetFactor],
    alloc: Global,
    names: &Names,
    draft: &mut Draft,
) -> Result<Items<StFactor>, Memory>
    ensures text { IfOk result
        (λ all. st.view_factors all ≡ t.factors_text (naming_of names.now) draft.old.next (view_factors parts.now)) }
    ensures next { OnOk result (draft.new.next ≡ draft.old.next + t.factors_temps (view_factors parts.now)) }
    ensures before { OnOk result (view_stmts draft.new.statements
        ≡ append (view_stmts draft.old.statements) (t.factors_before (naming_of names.now) draft.old.next (view_factors parts.now))) }
{
    let mut all = Items::new(alloc);
    for part in parts {
        let text = written(&part.value, alloc, names, draft)?;
        let factor = factor_of(alloc, part.op, text)?;
        all.push(factor.into_inner())?;
    }
    Ok(all)
}

/// The branches of an `if`, each of which sets the variable with this name.
#[cycle(walk)]
fn branches_written(
    branches: &[NetBranch],
    name: &Text,
    alloc: Global,
    names: &Names,
    draft: &mut Draft,
) -> Result<Items<StBranch>, Memory>
    ensures text { IfOk result
        (λ all. st.view_branches all ≡ t.branches_text (naming_of names.now) name.now draft.old.next (view_branches branches.now)) }
    ensures next { OnOk result (draft.new.next ≡ draft.old.next + t.branches_temps (view_branches branches.now)) }
    ensures before { OnOk result (view_stmts draft.new.statements
        ≡ append (view_stmts draft.old.statements) (t.branches_before (naming_of names.now) draft.old.next (view_branches branches.now))) }
{
    let mut all = Items::new(alloc);
    for branch in branches {
        let cond = written(&branch.cond, alloc, names, draft)?;
        let value = written(&branch.value, alloc, names, draft)?;
        let made = branch_of(alloc, name, cond, value)?;
        all.push(made.into_inner())?;
    }
    Ok(all)
}

/// The name of the variable of an `if`, which takes the next number.
fn own_name(alloc: Global, names: &Names, draft: &mut Draft) -> Result<Text, Memory>
    ensures name { IfOk result (λ x. x ≡ (naming_of names.now).own draft.old.next) }
    ensures next { OnOk result (draft.new.next ≡ draft.old.next + 1) }
    ensures before { OnOk result (draft.new.statements ≡ draft.old.statements) }
{
    let number = draft.take_number()?;
    names.own_name(alloc, number)
}

/// The variable of an `if`; the statement that sets it is added to the draft.
#[tactic(auto, using(crate::proofs::Joining::statements))]
fn case_added(
    alloc: Global,
    name: Text,
    cases: Items<StBranch>,
    value: Boxed<StExpr>,
    draft: &mut Draft,
) -> Result<Boxed<StExpr>, Memory>
    ensures text { IfOk result (λ e. view_expr e ≡ named name) }
    ensures next { OnOk result (draft.new.next ≡ draft.old.next) }
    ensures before { OnOk result (view_stmts draft.new.statements
        ≡ append (view_stmts draft.old.statements) (stms (t.case_text name (st.view_branches cases) (view_expr value)) no_stms)) }
{
    let case = case_of(alloc, &name, cases, value)?;
    draft.statements.push(case.into_inner())?;
    Boxed::new(alloc, StExpr::Named(name))
}
