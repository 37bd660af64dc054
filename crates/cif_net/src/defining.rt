//! The definition of an algebraic variable as one expression: by location it is an `if` over the locations in their order, the last
//! one as `else`.

ghost use Rattle.std.specs.Prelude.{◌≡◌, map, IfOk};
ghost use Rattle.cif_net.specs.View.{alg_tree};
ghost use Rattle.cif_net_expr.specs.Tree.{net_expr, n_if};
ghost use Rattle.cif_net_expr.specs.View.{view, view_branch, branches_of};
ghost use Rattle.cif_net_model.specs.Inline as inline;
ghost use Rattle.cif_net.specs.Places.{first_at, branch_by_place, branches_by_place};

use crate::{Alg, AlgValue};
use cif_base::{Boxed, Items, Memory};
use cif_net_expr::{NetBranch, NetExpr, NetForm};
use std::alloc::Global;

/// The place of the first expression.
fn first_place(all: &[NetExpr]) -> u32
    ensures { result ≡ first_at (map view all.now) }
{
    match all {
        [] => 0,
        [first, ..] => first.at,
    }
}

/// A value where the automaton is in that location.
fn branch_at(auto: u32, place: u32, value: NetExpr) -> NetBranch
    ensures { view_branch result ≡ branch_by_place auto place (view value) }
{
    let form = NetForm::Loc { auto, place };
    let cond = NetExpr { form, at: value.at };
    NetBranch { cond, value }
}

/// A branch for each value, by the location with its number.
fn place_branches(
    alloc: Global,
    auto: u32,
    values: Items<NetExpr>,
) -> Result<Items<NetBranch>, Memory>
    ensures { IfOk result (λ all. map view_branch all ≡ branches_by_place auto 0 (map view values)) }
{
    let mut all = Items::new(alloc);
    let mut place: u32 = 0;
    for value in values.into_vec() {
        all.push(branch_at(auto, place, value))?;
        place = place.checked_add(1).ok_or(Memory)?;
    }
    Ok(all)
}

/// The value of the first branch whose condition holds, else the other.
fn choice(
    alloc: Global,
    branches: Items<NetBranch>,
    other: Boxed<NetExpr>,
    at: u32,
) -> Result<Boxed<NetExpr>, Memory>
    ensures { IfOk result (λ x. view x ≡ net_expr (n_if (branches_of (map view_branch branches)) (view other)) at) }
{
    let form = NetForm::If { branches, other };
    Boxed::new(alloc, NetExpr { form, at })
}

/// One expression for the values of all locations of an automaton. The time is linear in how many there are.
pub fn by_places(alloc: Global, auto: u32, values: Items<NetExpr>) -> Result<Boxed<NetExpr>, Memory>
    ensures { IfOk result (λ x. view x ≡ inline.by_places auto (map view values)) }
{
    let at = first_place(values.as_slice());
    let mut values = values;
    let Some(last) = values.pop() else {
        let form = NetForm::Int(0);
        return Boxed::new(alloc, NetExpr { form, at: 0 });
    };
    let other = Boxed::new(alloc, last)?;
    if values.is_empty() {
        return Ok(other);
    }
    let branches = place_branches(alloc, auto, values)?;
    choice(alloc, branches, other, at)
}

/// A copy of a list of expressions.
fn copied(alloc: Global, all: &[NetExpr]) -> Result<Items<NetExpr>, Memory>
    ensures { IfOk result (λ copies. copies ≡ all.now) }
{
    let mut copies = Items::new(alloc);
    for expr in all {
        copies.push(expr.copy(alloc)?.into_inner())?;
    }
    Ok(copies)
}

/// The definition of an algebraic variable as one expression. The time is linear in it.
pub fn definition(alloc: Global, alg: &Alg) -> Result<Boxed<NetExpr>, Memory>
    ensures { IfOk result (λ x. view x ≡ inline.defined_by (alg_tree alg.now)) }
{
    match &alg.value {
        AlgValue::One(value) => value.copy(alloc),
        AlgValue::ByLoc { auto, values } => {
            let values = copied(alloc, values.as_slice())?;
            by_places(alloc, *auto, values)
        }
    }
}
