//! Whether names in expressions are constants or literals.

ghost use Rattle.std.specs.Prelude.{◌≡◌, map};
ghost use Rattle.cif_ast.specs.View.{view, view_form, view_exprs, view_terms, view_factors, view_branches};
ghost use Rattle.cif_ast.specs.Tree.{named};
ghost use Rattle.cif_source.specs.Source.{type_tree};
ghost use Rattle.cif_types_constancy.specs.Collected.{type_of, typed_of};
ghost use Rattle.cif_types_constancy.specs.Constancy as constancy;

use crate::collecting::Typed;
use cif_ast::{Branch, Expr, Factor, Form, Name, Term, TypeUse};
use cif_scope::{Looked, Scopes, Sort, What};

fn is_constant(what: Option<What>) -> bool
    ensures { result ≡ constancy.is_constant_slot what }
{
    match what {
        Some(What::Declared(sort)) => matches!(sort, Sort::Constant),
        Some(What::Literal(_)) => true,
        _ => false,
    }
}

fn is_wrong(scopes: &Scopes, found: Looked) -> bool
    ensures { result ≡ constancy.is_wrong_by scopes.now found }
{
    match found {
        Looked::At(body, slot) => !is_constant(scopes.what(body, slot)),
        Looked::Missing => false,
        Looked::Blocked => true,
    }
}

/// Where a name in a body stands, if it is no constant and no literal.
fn name_unfit(name: &Name, scopes: &Scopes, body: u32) -> Option<u32>
    ensures { result ≡ constancy.shape_unfit (constancy.is_wrong_name scopes.now body) (named name.now) }
{
    if is_wrong(scopes, scopes.look(true, body, name)) {
        Some(name.at)
    } else {
        None
    }
}

/// Where the first name of an expression stands that is no constant and no literal.
#[cycle(constancy)]
fn unfit(expr: &Expr, scopes: &Scopes, body: u32) -> Option<u32>
    ensures { result ≡ constancy.unfit (constancy.is_wrong_name scopes.now body) (view expr.now) }
{
    form_unfit(&expr.form, scopes, body)
}

#[cycle(constancy)]
fn form_unfit(form: &Form, scopes: &Scopes, body: u32) -> Option<u32>
    ensures { result ≡ constancy.shape_unfit (constancy.is_wrong_name scopes.now body) (view_form form.now) }
{
    match form {
        Form::Bool(_) | Form::Int(_) | Form::Received => None,
        Form::Named(name) => name_unfit(name, scopes, body),
        Form::Paren(e) | Form::Neg(e) | Form::Plus(e) | Form::Not(e) | Form::Abs(e) => {
            unfit(e.get(), scopes, body)
        }
        Form::Min(a, b) | Form::Max(a, b) | Form::Implies(a, b) | Form::Iff(a, b) => {
            let first = unfit(a.get(), scopes, body);
            first.or(unfit(b.get(), scopes, body))
        }
        Form::Compare { left, op: _, right } => {
            let first = unfit(left.get(), scopes, body);
            first.or(unfit(right.get(), scopes, body))
        }
        Form::Sum { first, rest } => {
            let first = unfit(first.get(), scopes, body);
            first.or(terms_unfit(rest.as_slice(), scopes, body))
        }
        Form::Product { first, rest } => {
            let first = unfit(first.get(), scopes, body);
            first.or(factors_unfit(rest.as_slice(), scopes, body))
        }
        Form::And(parts) | Form::Or(parts) => all_unfit(parts.as_slice(), scopes, body),
        Form::If { branches, other } => {
            let first = branches_unfit(branches.as_slice(), scopes, body);
            first.or(unfit(other.get(), scopes, body))
        }
    }
}

#[cycle(constancy)]
fn terms_unfit(all: &[Term], scopes: &Scopes, body: u32) -> Option<u32>
    ensures { result ≡ constancy.terms_unfit (constancy.is_wrong_name scopes.now body) (view_terms all.now) }
{
    for term in all {
        if let Some(at) = unfit(&term.value, scopes, body) {
            return Some(at);
        }
    }
    None
}

#[cycle(constancy)]
fn factors_unfit(all: &[Factor], scopes: &Scopes, body: u32) -> Option<u32>
    ensures { result ≡ constancy.factors_unfit (constancy.is_wrong_name scopes.now body) (view_factors all.now) }
{
    for factor in all {
        if let Some(at) = unfit(&factor.value, scopes, body) {
            return Some(at);
        }
    }
    None
}

#[cycle(constancy)]
fn all_unfit(all: &[Expr], scopes: &Scopes, body: u32) -> Option<u32>
    ensures { result ≡ constancy.trees_unfit (constancy.is_wrong_name scopes.now body) (view_exprs all.now) }
{
    for expr in all {
        if let Some(at) = unfit(expr, scopes, body) {
            return Some(at);
        }
    }
    None
}

#[cycle(constancy)]
fn branches_unfit(all: &[Branch], scopes: &Scopes, body: u32) -> Option<u32>
    ensures { result ≡ constancy.branches_unfit (constancy.is_wrong_name scopes.now body) (view_branches all.now) }
{
    for branch in all {
        let first = all_unfit(branch.conds.as_slice(), scopes, body);
        if let Some(at) = first.or(unfit(&branch.value, scopes, body)) {
            return Some(at);
        }
    }
    None
}

fn type_unfit(ty: &TypeUse, scopes: &Scopes, body: u32) -> Option<u32>
    ensures { result ≡ constancy.type_unfit (constancy.is_wrong_name scopes.now body) (type_tree ty.now) }
{
    match ty {
        TypeUse::Bool | TypeUse::Int | TypeUse::Named(_) => None,
        TypeUse::Range(lower, upper) => {
            let first = unfit(lower, scopes, body);
            first.or(unfit(upper, scopes, body))
        }
    }
}

/// Where the first name in a bound of these types of a body stands that is no constant and no literal.
pub fn types_unfit(types: &[&TypeUse], scopes: &Scopes, body: u32) -> Option<u32>
    ensures { result ≡ constancy.types_unfit (constancy.is_wrong_name scopes.now body) (map type_of types.now) }
{
    for ty in types {
        if let Some(at) = type_unfit(ty, scopes, body) {
            return Some(at);
        }
    }
    None
}

/// Where the first name in these values of a body stands that is no constant and no literal.
pub fn values_unfit(values: &[Typed<'_>], scopes: &Scopes, body: u32) -> Option<u32>
    ensures { result ≡ constancy.values_unfit (constancy.is_wrong_name scopes.now body) (map typed_of values.now) }
{
    for typed in values {
        if let Some(at) = unfit(typed.value, scopes, body) {
            return Some(at);
        }
    }
    None
}
