//! The types of the variables that the text of an expression has for itself.

ghost use Rattle.std.specs.Prelude.{◌≡◌, ◌++◌, OnOk, option_map, slice_get};
ghost use Rattle.cif_base.specs.declared.types.Ty.{Ty};
ghost use Rattle.cif_net_expr.specs.View.{view, view_branches, view_exprs, view_factors, view_form, view_terms};
ghost use Rattle.cif_net.specs.View.{net_tree, input_tree, var_tree};
ghost use Rattle.plc_expr.specs.Sorts as s;

use cif_base::{Items, Memory, Ty};
use cif_net::{Net, NetBranch, NetExpr, NetFactor, NetForm, NetTerm};
use st_ast::StTy;

fn is_bool(ty: Ty) -> bool
    ensures { result ≡ s.is_bool_type ty }
{
    matches!(ty, Ty::Bool)
}

/// Whether a discrete variable is true or false.
fn variable_is_boolean(net: &Net, number: u32) -> bool
    ensures { result ≡ s.stored_boolean (slice_get (net_tree net.now).vars number) }
{
    match net.vars.get(number as usize) {
        Some(found) => is_bool(found.ty),
        None => false,
    }
}

/// Whether an input is true or false.
fn input_is_boolean(net: &Net, number: u32) -> bool
    ensures { result ≡ s.stored_boolean (slice_get (net_tree net.now).inputs number) }
{
    match net.inputs.get(number as usize) {
        Some(found) => is_bool(found.ty),
        None => false,
    }
}

/// Whether what is received is true or false.
fn received_is_boolean(received: Option<Ty>) -> bool
    ensures { result ≡ s.received_boolean received }
{
    match received {
        Some(ty) => is_bool(ty),
        None => false,
    }
}

/// Whether an expression is true or false, and not a number, where a value of a type is received.
#[cycle(kinds)]
fn is_boolean(expr: &NetExpr, net: &Net, received: Option<Ty>) -> bool
    ensures { result ≡ s.is_boolean (net_tree net.now) received (view expr.now) }
{
    is_boolean_form(&expr.form, net, received)
}

#[cycle(kinds)]
fn is_boolean_form(form: &NetForm, net: &Net, received: Option<Ty>) -> bool
    ensures { result ≡ s.form_boolean (net_tree net.now) received (view_form form.now) }
{
    match form {
        NetForm::Bool(_) | NetForm::Loc { auto: _, place: _ } | NetForm::Not(_) => true,
        NetForm::Compare {
            left: _,
            op: _,
            right: _,
        } => true,
        NetForm::And(_) | NetForm::Or(_) => true,
        NetForm::Implies(_, _) | NetForm::Iff(_, _) => true,
        NetForm::Var(number) => variable_is_boolean(net, *number),
        NetForm::Input(number) => input_is_boolean(net, *number),
        NetForm::If { branches: _, other } => is_boolean(other.get(), net, received),
        NetForm::Received => received_is_boolean(received),
        _ => false,
    }
}

/// The type of the variable of an `if` whose last value this is.
fn type_of(other: &NetExpr, net: &Net, received: Option<Ty>) -> StTy
    ensures { result ≡ s.type_by (s.is_boolean (net_tree net.now) received (view other.now)) }
{
    if is_boolean(other, net, received) {
        StTy::Bool
    } else {
        StTy::Lint
    }
}

/// Adds the types of the own variables of an expression, in the order of their numbers: there is one for each `if`. A value of
/// a type may be received.
#[cycle(types)]
pub fn own_types_of(
    expr: &NetExpr,
    net: &Net,
    received: Option<Ty>,
    types: &mut Items<StTy>,
) -> Result<(), Memory>
    ensures { OnOk result (types.new ≡ types.old ++ s.own_types (net_tree net.now) received (view expr.now)) }
{
    form_types(&expr.form, net, received, types)
}

#[cycle(types)]
fn form_types(
    form: &NetForm,
    net: &Net,
    received: Option<Ty>,
    types: &mut Items<StTy>,
) -> Result<(), Memory>
    ensures { OnOk result (types.new ≡ types.old ++ s.form_types (net_tree net.now) received (view_form form.now)) }
{
    match form {
        NetForm::Neg(e) | NetForm::Plus(e) | NetForm::Not(e) | NetForm::Abs(e) => {
            own_types_of(e.get(), net, received, types)
        }
        NetForm::Min(a, b) | NetForm::Max(a, b) => {
            own_types_of(a.get(), net, received, types)?;
            own_types_of(b.get(), net, received, types)
        }
        NetForm::Implies(a, b) | NetForm::Iff(a, b) => {
            own_types_of(a.get(), net, received, types)?;
            own_types_of(b.get(), net, received, types)
        }
        NetForm::Compare { left, op: _, right } => {
            own_types_of(left.get(), net, received, types)?;
            own_types_of(right.get(), net, received, types)
        }
        NetForm::Sum { first, rest } => {
            own_types_of(first.get(), net, received, types)?;
            terms_types(rest.as_slice(), net, received, types)
        }
        NetForm::Product { first, rest } => {
            own_types_of(first.get(), net, received, types)?;
            factors_types(rest.as_slice(), net, received, types)
        }
        NetForm::And(parts) | NetForm::Or(parts) => list_types(
            parts.as_slice(),
            net,
            received,
            types,
        ),
        NetForm::If { branches, other } => {
            types.push(type_of(other.get(), net, received))?;
            branches_types(branches.as_slice(), net, received, types)?;
            own_types_of(other.get(), net, received, types)
        }
        _ => Ok(()),
    }
}

#[cycle(types)]
fn terms_types(
    parts: &[NetTerm],
    net: &Net,
    received: Option<Ty>,
    types: &mut Items<StTy>,
) -> Result<(), Memory>
    ensures { OnOk result (types.new ≡ types.old ++ s.terms_types (net_tree net.now) received (view_terms parts.now)) }
{
    for part in parts {
        own_types_of(&part.value, net, received, types)?;
    }
    Ok(())
}

#[cycle(types)]
fn factors_types(
    parts: &[NetFactor],
    net: &Net,
    received: Option<Ty>,
    types: &mut Items<StTy>,
) -> Result<(), Memory>
    ensures { OnOk result (types.new ≡ types.old ++ s.factors_types (net_tree net.now) received (view_factors parts.now)) }
{
    for part in parts {
        own_types_of(&part.value, net, received, types)?;
    }
    Ok(())
}

#[cycle(types)]
fn list_types(
    parts: &[NetExpr],
    net: &Net,
    received: Option<Ty>,
    types: &mut Items<StTy>,
) -> Result<(), Memory>
    ensures { OnOk result (types.new ≡ types.old ++ s.list_types (net_tree net.now) received (view_exprs parts.now)) }
{
    for part in parts {
        own_types_of(part, net, received, types)?;
    }
    Ok(())
}

#[cycle(types)]
fn branches_types(
    branches: &[NetBranch],
    net: &Net,
    received: Option<Ty>,
    types: &mut Items<StTy>,
) -> Result<(), Memory>
    ensures { OnOk result (types.new ≡ types.old ++ s.branches_types (net_tree net.now) received (view_branches branches.now)) }
{
    for branch in branches {
        own_types_of(&branch.cond, net, received, types)?;
        own_types_of(&branch.value, net, received, types)?;
    }
    Ok(())
}
