//! Making statements of their parts, at the end of a list.

ghost use Rattle.std.specs.Prelude.{◌≡◌, [], ◌∷◌, ◌++◌, map, OnOk};
ghost use Rattle.st_check.specs.PlacedTree as to;
ghost use Rattle.st_check.specs.PlacedView.{expr_view, stmt_view, stmts_view, branch_view, branches_view};

use crate::placed::{PlacedBranch, PlacedExpr, PlacedStmt};
use crate::testing::condition;
use cif_base::{Items, Memory};
use st_ast::StTy;
use std::alloc::Global;

/// Adds an assignment to the variable at a place, which has this type.
pub fn push_assignment(
    found: &mut Vec<PlacedStmt>,
    place: u32,
    ty: StTy,
    value: PlacedExpr,
) -> Result<(), Memory>
    ensures { OnOk result (map stmt_view found.new.items
        ≡ map stmt_view found.old.items ++ to.assign place ty (expr_view value) ∷ []) }
{
    found.push(PlacedStmt::Assign { place, ty, value })?;
    Ok(())
}

/// Adds an IF.
pub fn push_choice(
    found: &mut Vec<PlacedStmt>,
    branches: Vec<PlacedBranch>,
    other: Vec<PlacedStmt>,
) -> Result<(), Memory>
    ensures { OnOk result (map stmt_view found.new.items
        ≡ map stmt_view found.old.items ++ to.choice (branches_view branches.items) (stmts_view other.items) ∷ []) }
{
    let branches = Items::from_vec(branches);
    let other = Items::from_vec(other);
    found.push(PlacedStmt::If { branches, other })?;
    Ok(())
}

/// Adds a WHILE.
pub fn push_loop(
    alloc: Global,
    found: &mut Vec<PlacedStmt>,
    cond: PlacedExpr,
    body: Vec<PlacedStmt>,
) -> Result<(), Memory>
    ensures { OnOk result (map stmt_view found.new.items
        ≡ map stmt_view found.old.items ++ to.loop (expr_view cond) (stmts_view body.items) ∷ []) }
{
    let cond = condition(alloc, cond)?.into_inner();
    let body = Items::from_vec(body);
    found.push(PlacedStmt::While { cond, body })?;
    Ok(())
}

/// Adds a branch of an IF.
pub fn push_branch(
    alloc: Global,
    found: &mut Vec<PlacedBranch>,
    cond: PlacedExpr,
    body: Vec<PlacedStmt>,
) -> Result<(), Memory>
    ensures { OnOk result (map branch_view found.new.items
        ≡ map branch_view found.old.items ++ (expr_view cond, stmts_view body.items) ∷ []) }
{
    let cond = condition(alloc, cond)?.into_inner();
    let body = Items::from_vec(body);
    found.push(PlacedBranch { cond, body })?;
    Ok(())
}
