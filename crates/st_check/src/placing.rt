//! Expressions with places in the place of names, made while their sorts are told, so that each name is looked up once.

ghost use Rattle.std.specs.Prelude.{◌≡◌, IfOk, OnOk};
ghost use Rattle.st_ast.specs.Checks as checks;
ghost use Rattle.st_ast.specs.Tree.{named};
ghost use Rattle.st_ast.specs.Values.{of_bool};
ghost use Rattle.st_ast.specs.View.{view_expr, view_exprs, view_factors, view_terms};
ghost use Rattle.st_check.specs.Operations.{single_sort, pair_sort};
ghost use Rattle.st_check.specs.Sorts.{sort_told};
ghost use Rattle.st_check.specs.PlacedTree as to;
ghost use Rattle.st_check.specs.PlacedView.{expr_view, terms_view, factors_view};
ghost use Rattle.st_check.specs.Placing as placing;

use crate::scope::Scope;
use crate::sorts::{
    Sort, both, given, is_boolean, is_integer, sort_at, sort_of_integers, sort_of_pair,
    sort_of_selection, sort_of_single,
};
use crate::{
    Join, Pairing, PlacedExpr, PlacedFactor, PlacedTerm, Single, join_all, pair, product, select,
    single, sum, truth,
};
use cif_base::{Items, Memory};
use st_ast::{StExpr, StFactor, StTerm};
use std::alloc::Global;

fn place_name(
    alloc: Global,
    scope: &Scope,
    name: &[u8],
    sort: &mut Option<Sort>,
) -> Result<PlacedExpr, Memory>
    ensures placed { IfOk result (λ e. expr_view e ≡ placing.placed scope.now (named name.now)) }
    ensures sorted { OnOk result (sort_told sort.new ≡ checks.sort_of scope.now (named name.now)) }
{
    let place = scope.place(alloc, name)?;
    *sort = sort_at(scope, place);
    Ok(PlacedExpr::Place(place))
}

/// Places an expression, and tells its sort, which is none where an operand isn't as asked.
#[cycle(placed)]
pub fn place_expr(
    alloc: Global,
    scope: &Scope,
    expr: &StExpr,
    sort: &mut Option<Sort>,
) -> Result<PlacedExpr, Memory>
    ensures placed { IfOk result (λ e. expr_view e ≡ placing.placed scope.now (view_expr expr.now)) }
    ensures sorted { OnOk result (sort_told sort.new ≡ checks.sort_of scope.now (view_expr expr.now)) }
{
    match expr {
        StExpr::Bool(is_true) => {
            *sort = Some(Sort::Boolean);
            Ok(truth(*is_true))
        }
        StExpr::Int(number) => {
            *sort = Some(Sort::Integer);
            Ok(PlacedExpr::Number(*number))
        }
        StExpr::Named(name) => place_name(alloc, scope, name.as_slice(), sort),
        StExpr::Paren(inner) => place_expr(alloc, scope, inner.get(), sort),
        StExpr::Neg(inner) => place_single(alloc, scope, Single::Minus, inner.get(), sort),
        StExpr::Not(inner) => place_single(alloc, scope, Single::Not, inner.get(), sort),
        StExpr::Abs(inner) => place_single(alloc, scope, Single::Absolute, inner.get(), sort),
        // Which operands of a product or a sum are placed first changes nothing; the further ones are quicker to prove.
        StExpr::Product { first, rest } => {
            let mut integers = true;
            let rest = place_factors(alloc, scope, rest.as_slice(), &mut integers)?;
            let first = place_expr(alloc, scope, first.get(), sort)?;
            *sort = sort_of_integers(*sort, integers);
            product(alloc, first, rest)
        }
        StExpr::Sum { first, rest } => {
            let mut integers = true;
            let rest = place_terms(alloc, scope, rest.as_slice(), &mut integers)?;
            let first = place_expr(alloc, scope, first.get(), sort)?;
            *sort = sort_of_integers(*sort, integers);
            sum(alloc, first, rest)
        }
        StExpr::Order { left, op, right } => {
            let first = place_expr(alloc, scope, left.get(), sort)?;
            place_second(alloc, scope, right.get(), first, Pairing::Order(*op), sort)
        }
        StExpr::Equal { left, equal, right } => {
            let pairing = Pairing::Equality(*equal);
            let first = place_expr(alloc, scope, left.get(), sort)?;
            place_second(alloc, scope, right.get(), first, pairing, sort)
        }
        StExpr::Min(left, right) => {
            let first = place_expr(alloc, scope, left.get(), sort)?;
            place_second(alloc, scope, right.get(), first, Pairing::Smaller, sort)
        }
        StExpr::Max(left, right) => {
            let first = place_expr(alloc, scope, left.get(), sort)?;
            place_second(alloc, scope, right.get(), first, Pairing::Larger, sort)
        }
        StExpr::And(all) => place_joined(alloc, scope, Join::And, all.as_slice(), sort),
        StExpr::Xor(all) => place_joined(alloc, scope, Join::Xor, all.as_slice(), sort),
        StExpr::Or(all) => place_joined(alloc, scope, Join::Or, all.as_slice(), sort),
        StExpr::Sel(condition, otherwise, then) => {
            let mut asked = None;
            let condition = place_expr(alloc, scope, condition.get(), &mut asked)?;
            let mut first = None;
            let otherwise = place_expr(alloc, scope, otherwise.get(), &mut first)?;
            let then = place_expr(alloc, scope, then.get(), sort)?;
            *sort = sort_of_selection(asked, first, *sort);
            select(alloc, condition, otherwise, then)
        }
    }
}

/// Places an operation on one operand, and tells its sort.
#[cycle(placed)]
fn place_single(
    alloc: Global,
    scope: &Scope,
    op: Single,
    operand: &StExpr,
    sort: &mut Option<Sort>,
) -> Result<PlacedExpr, Memory>
    ensures placed { IfOk result (λ e. expr_view e ≡ to.single op (placing.placed scope.now (view_expr operand.now))) }
    ensures sorted { OnOk result (sort_told sort.new ≡ single_sort op (checks.sort_of scope.now (view_expr operand.now))) }
{
    let operand = place_expr(alloc, scope, operand, sort)?;
    *sort = sort_of_single(op, *sort);
    single(alloc, op, operand)
}

/// Places the second of two operands beside the first, whose sort `sort` is, and tells the sort of both together.
#[cycle(placed)]
fn place_second(
    alloc: Global,
    scope: &Scope,
    second: &StExpr,
    first: PlacedExpr,
    pairing: Pairing,
    sort: &mut Option<Sort>,
) -> Result<PlacedExpr, Memory>
    ensures placed { IfOk result (λ e. expr_view e
        ≡ to.pair (expr_view first) (placing.of_pairing pairing) (placing.placed scope.now (view_expr second.now))) }
    ensures sorted { OnOk result (sort_told sort.new
        ≡ pair_sort pairing (sort_told sort.old) (checks.sort_of scope.now (view_expr second.now))) }
{
    let first_sort = *sort;
    let second = place_expr(alloc, scope, second, sort)?;
    *sort = sort_of_pair(pairing, first_sort, *sort);
    pair(alloc, first, pairing, second)
}

/// Places the operands of one level, joined, and tells their sort.
#[cycle(placed)]
#[tactic(auto, using(crate::proofs::Listed::and_later))]
fn place_joined(
    alloc: Global,
    scope: &Scope,
    join: Join,
    operands: &[StExpr],
    sort: &mut Option<Sort>,
) -> Result<PlacedExpr, Memory>
    ensures placed { IfOk result (λ e. expr_view e ≡ to.chain (to.number (of_bool (to.joined_none join)))
        (placing.placed_exprs scope.now (to.of_join join) (view_exprs operands.now))) }
    ensures sorted { OnOk result (sort_told sort.new
        ≡ checks.given (checks.all_booleans scope.now (view_exprs operands.now)) checks.boolean) }
{
    let mut found = Vec::with_capacity(alloc, operands.len())?;
    let mut booleans = true;
    for operand in operands {
        found.push(place_expr(alloc, scope, operand, sort)?)?;
        booleans = both(booleans, is_boolean(*sort));
    }
    *sort = given(booleans, Sort::Boolean);
    join_all(alloc, join, Items::from_vec(found))
}

/// Places the further operands of a product, and tells whether each is an integer.
#[cycle(placed)]
#[tactic(auto, using(crate::proofs::Listed::and_later))]
fn place_factors(
    alloc: Global,
    scope: &Scope,
    factors: &[StFactor],
    integers: &mut bool,
) -> Result<Items<PlacedFactor>, Memory>
    ensures placed { IfOk result (λ fs. factors_view fs ≡ placing.placed_factors scope.now (view_factors factors.now)) }
    ensures sorted { OnOk result (integers.new ≡ checks.all_integer_factors scope.now (view_factors factors.now)) }
{
    let mut found = Vec::with_capacity(alloc, factors.len())?;
    let mut sort = None;
    *integers = true;
    for factor in factors {
        let value = place_expr(alloc, scope, &factor.value, &mut sort)?;
        let op = factor.op;
        found.push(PlacedFactor { op, value })?;
        *integers = both(*integers, is_integer(sort));
    }
    Ok(Items::from_vec(found))
}

/// Places the further operands of a sum, and tells whether each is an integer.
#[cycle(placed)]
#[tactic(auto, using(crate::proofs::Listed::and_later))]
fn place_terms(
    alloc: Global,
    scope: &Scope,
    terms: &[StTerm],
    integers: &mut bool,
) -> Result<Items<PlacedTerm>, Memory>
    ensures placed { IfOk result (λ ts. terms_view ts ≡ placing.placed_terms scope.now (view_terms terms.now)) }
    ensures sorted { OnOk result (integers.new ≡ checks.all_integers scope.now (view_terms terms.now)) }
{
    let mut found = Vec::with_capacity(alloc, terms.len())?;
    let mut sort = None;
    *integers = true;
    for term in terms {
        let value = place_expr(alloc, scope, &term.value, &mut sort)?;
        let minus = term.minus;
        found.push(PlacedTerm { minus, value })?;
        *integers = both(*integers, is_integer(sort));
    }
    Ok(Items::from_vec(found))
}
