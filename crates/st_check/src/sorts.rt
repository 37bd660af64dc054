//! The sorts of expressions, and whether their names are declared.

ghost use Rattle.std.specs.Prelude.{◌≡◌, ◌&&◌, IfOk, if◌then◌else◌, option_map, slice_get};
ghost use Rattle.st_ast.specs.Checks as checks;
ghost use Rattle.st_ast.specs.View.{view_expr, view_exprs, view_factors, view_terms};
ghost use Rattle.st_ast.specs.declared.tree.StVar.{StVar};
ghost use Rattle.st_check.specs.Operations.{single_sort, pair_sort};
ghost use Rattle.st_check.specs.Sorts.{sort_told, told};

use crate::scope::Scope;
use crate::{Pairing, Single};
use cif_base::Memory;
use st_ast::{StExpr, StFactor, StTerm, StTy};
use std::alloc::Global;

/// What an expression is.
#[derive(Clone, Copy)]
pub enum Sort {
    Boolean,
    Integer,
}

/// The sort of the values of a type.
pub fn sort_of_type(ty: StTy) -> Sort
    ensures { told result ≡ checks.sort_of_type ty }
{
    match ty {
        StTy::Bool => Sort::Boolean,
        StTy::Lint => Sort::Integer,
        StTy::Range { lo: _, hi: _ } => Sort::Integer,
    }
}

pub fn is_boolean(sort: Option<Sort>) -> bool
    ensures { result ≡ checks.is_boolean (sort_told sort) }
{
    matches!(sort, Some(Sort::Boolean))
}

pub fn is_integer(sort: Option<Sort>) -> bool
    ensures { result ≡ checks.is_integer (sort_told sort) }
{
    matches!(sort, Some(Sort::Integer))
}

pub fn is_same(left: Option<Sort>, right: Option<Sort>) -> bool
    ensures { result ≡ checks.is_same_sort (sort_told left) (sort_told right) }
{
    match left {
        Some(Sort::Boolean) => is_boolean(right),
        Some(Sort::Integer) => is_integer(right),
        None => false,
    }
}

pub fn given(holds: bool, sort: Sort) -> Option<Sort>
    ensures { sort_told result ≡ checks.given holds (told sort) }
{
    if holds { Some(sort) } else { None }
}

/// Whether the operands so far and one more are as asked.
pub fn both(so_far: bool, next: bool) -> bool
    ensures { result ≡ (so_far && next) }
{
    so_far & next
}

/// The sort of an operation on one operand.
pub fn sort_of_single(op: Single, operand: Option<Sort>) -> Option<Sort>
    ensures { sort_told result ≡ single_sort op (sort_told operand) }
{
    match op {
        Single::Minus => given(is_integer(operand), Sort::Integer),
        Single::Not => given(is_boolean(operand), Sort::Boolean),
        Single::Absolute => given(is_integer(operand), Sort::Integer),
    }
}

/// The sort of a sum or a product, of whose operands after the first it is told whether they are integers.
pub fn sort_of_integers(first: Option<Sort>, rest: bool) -> Option<Sort>
    ensures { sort_told result ≡ checks.given (checks.is_integer (sort_told first) && rest) checks.integer }
{
    given(both(is_integer(first), rest), Sort::Integer)
}

/// The sort of two operands with what stands between them.
pub fn sort_of_pair(pairing: Pairing, first: Option<Sort>, second: Option<Sort>) -> Option<Sort>
    ensures { sort_told result ≡ pair_sort pairing (sort_told first) (sort_told second) }
{
    let integers = both(is_integer(first), is_integer(second));
    match pairing {
        Pairing::Order(_) => given(integers, Sort::Boolean),
        Pairing::Equality(_) => given(is_same(first, second), Sort::Boolean),
        Pairing::Smaller => given(integers, Sort::Integer),
        Pairing::Larger => given(integers, Sort::Integer),
    }
}

/// The sort of SEL.
pub fn sort_of_selection(
    condition: Option<Sort>,
    otherwise: Option<Sort>,
    chosen: Option<Sort>,
) -> Option<Sort>
    ensures { sort_told result ≡ (if checks.is_boolean (sort_told condition) && checks.is_same_sort (sort_told otherwise) (sort_told chosen)
        then sort_told otherwise else None) }
{
    if both(is_boolean(condition), is_same(otherwise, chosen)) {
        otherwise
    } else {
        None
    }
}

/// The sort of the variable at a place.
pub fn sort_at(scope: &Scope, place: u32) -> Option<Sort>
    ensures { sort_told result ≡ option_map (λ (v : StVar). checks.sort_of_type v.ty) (slice_get scope.now place) }
{
    match scope.at(place) {
        Some(var) => Some(sort_of_type(var.ty)),
        None => None,
    }
}

/// Whether every name of an expression is declared.
#[cycle(known)]
pub fn knows(alloc: Global, scope: &Scope, expr: &StExpr) -> Result<bool, Memory>
    ensures { IfOk result (λ known. known ≡ checks.knows scope.now (view_expr expr.now)) }
{
    match expr {
        StExpr::Bool(_) => Ok(true),
        StExpr::Int(_) => Ok(true),
        StExpr::Named(name) => scope.declares(alloc, name.as_slice()),
        StExpr::Paren(operand)
        | StExpr::Neg(operand)
        | StExpr::Not(operand)
        | StExpr::Abs(operand) => knows(alloc, scope, operand.get()),
        StExpr::Product { first, rest } => {
            Ok(knows(alloc, scope, first.get())? && knows_factors(alloc, scope, rest.as_slice())?)
        }
        StExpr::Sum { first, rest } => {
            Ok(knows(alloc, scope, first.get())? && knows_terms(alloc, scope, rest.as_slice())?)
        }
        StExpr::Order { left, right, .. }
        | StExpr::Equal { left, right, .. }
        | StExpr::Min(left, right)
        | StExpr::Max(left, right) => {
            Ok(knows(alloc, scope, left.get())? && knows(alloc, scope, right.get())?)
        }
        StExpr::And(operands) | StExpr::Xor(operands) | StExpr::Or(operands) => {
            knows_all(alloc, scope, operands.as_slice())
        }
        StExpr::Sel(condition, otherwise, chosen) => Ok(
            knows(alloc, scope, condition.get())?
                && knows(alloc, scope, otherwise.get())?
                && knows(alloc, scope, chosen.get())?,
        ),
    }
}

/// Whether every name of the factors is declared.
#[cycle(known)]
fn knows_factors(alloc: Global, scope: &Scope, factors: &[StFactor]) -> Result<bool, Memory>
    ensures { IfOk result (λ known. known ≡ checks.knows_factors scope.now (view_factors factors.now)) }
{
    for factor in factors {
        if !knows(alloc, scope, &factor.value)? {
            return Ok(false);
        }
    }
    Ok(true)
}

/// Whether every name of the terms is declared.
#[cycle(known)]
fn knows_terms(alloc: Global, scope: &Scope, terms: &[StTerm]) -> Result<bool, Memory>
    ensures { IfOk result (λ known. known ≡ checks.knows_terms scope.now (view_terms terms.now)) }
{
    for term in terms {
        if !knows(alloc, scope, &term.value)? {
            return Ok(false);
        }
    }
    Ok(true)
}

/// Whether every name of the operands is declared.
#[cycle(known)]
fn knows_all(alloc: Global, scope: &Scope, operands: &[StExpr]) -> Result<bool, Memory>
    ensures { IfOk result (λ known. known ≡ checks.knows_all scope.now (view_exprs operands.now)) }
{
    for operand in operands {
        if !knows(alloc, scope, operand)? {
            return Ok(false);
        }
    }
    Ok(true)
}
