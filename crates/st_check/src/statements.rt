//! The checks of statements, in the order of their numbers. What is checked is placed.

ghost use Rattle.std.specs.Prelude.{◌≡◌, ◌<◌, ◌^◌, ◌+◌, [], ◌∷◌, ◌++◌, map, IfOk, OnOk};
ghost use Rattle.st_ast.specs.Checks as checks;
ghost use Rattle.st_ast.specs.Tree.{assign, choice, loop, no_other, no_stms};
ghost use Rattle.st_ast.specs.View.{view_expr, view_stmt, view_stmts, view_branches};
ghost use Rattle.st_check.specs.Outcome.{Tells, Counts};
ghost use Rattle.st_check.specs.PlacedView.{expr_view, stmt_view, stmts_view, branches_view};
ghost use Rattle.st_check.specs.Placing as placing;

use crate::error::StCheckErr;
use crate::placing::place_expr;
use crate::scope::Scope;
use crate::sorts::{both, is_boolean, is_same, knows, sort_of_type};
use crate::{
    PlacedBranch, PlacedExpr, PlacedStmt, push_assignment, push_branch, push_choice, push_loop,
};
use cif_base::Memory;
use st_ast::{StBranch, StClass, StExpr, StVar, Stmt};
use std::alloc::Global;

/// Whether every name of the conditions is declared.
fn knows_conditions(alloc: Global, scope: &Scope, branches: &[StBranch]) -> Result<bool, Memory>
    ensures { IfOk result (λ known. known ≡ checks.knows_conditions scope.now (view_branches branches.now)) }
{
    for branch in branches {
        if !knows(alloc, scope, &branch.cond)? {
            return Ok(false);
        }
    }
    Ok(true)
}

/// Whether an expression is one of Booleans.
fn is_condition(alloc: Global, scope: &Scope, cond: &StExpr) -> Result<bool, Memory>
    ensures { IfOk result (λ is. is ≡ checks.is_boolean (checks.sort_of scope.now (view_expr cond.now))) }
{
    let mut sort = None;
    place_expr(alloc, scope, cond, &mut sort)?;
    Ok(is_boolean(sort))
}

/// Whether each condition is a BOOL.
fn have_boolean_conditions(
    alloc: Global,
    scope: &Scope,
    branches: &[StBranch],
) -> Result<bool, Memory>
    ensures { IfOk result (λ all. all ≡ checks.boolean_conditions scope.now (view_branches branches.now)) }
{
    for branch in branches {
        if !is_condition(alloc, scope, &branch.cond)? {
            return Ok(false);
        }
    }
    Ok(true)
}

fn can_be_assigned(var: &StVar) -> bool
    ensures { result ≡ checks.can_be_assigned (Some var.now) }
{
    match var.class {
        StClass::Plain => true,
        StClass::Output => true,
        StClass::Constant => false,
        StClass::Input => false,
    }
}

/// Checks the assignment with the number `statement`, and adds it to those found.
#[tactic(auto, using(crate::proofs::Sorted::value_known))]
fn check_assignment(
    alloc: Global,
    scope: &Scope,
    target: &[u8],
    value: &StExpr,
    statement: u32,
    found: &mut Vec<PlacedStmt>,
) -> Result<(), StCheckErr>
    ensures told { Tells result (checks.own_faults scope.now statement (assign target.now (view_expr value.now))) }
    ensures placed { OnOk result (map stmt_view found.new.items
        ≡ map stmt_view found.old.items ++ placing.placed_stm scope.now (assign target.now (view_expr value.now)) ∷ []) }
{
    let place = scope.place(alloc, target)?;
    let Some(var) = scope.at(place) else {
        return Err(StCheckErr::StUnknown { statement });
    };
    let wanted = Some(sort_of_type(var.ty));
    let mut sort = None;
    let placed = place_expr(alloc, scope, value, &mut sort)?;
    if !is_same(wanted, sort) {
        if !knows(alloc, scope, value)? {
            return Err(StCheckErr::StUnknown { statement });
        }
        return Err(StCheckErr::StMismatch { statement });
    }
    if !can_be_assigned(var) {
        return Err(StCheckErr::StNotAssignable { statement });
    }
    push_assignment(found, place, var.ty, placed)?;
    Ok(())
}

/// Checks the conditions of the IF with the number `statement`.
#[tactic(auto, using(crate::proofs::Sorted::conditions_known))]
fn check_conditions(
    alloc: Global,
    scope: &Scope,
    branches: &[StBranch],
    statement: u32,
) -> Result<(), StCheckErr>
    ensures { Tells result (checks.own_faults scope.now statement (choice (view_branches branches.now) no_other)) }
{
    if !have_boolean_conditions(alloc, scope, branches)? {
        if !knows_conditions(alloc, scope, branches)? {
            return Err(StCheckErr::StUnknown { statement });
        }
        return Err(StCheckErr::StMismatch { statement });
    }
    Ok(())
}

/// Checks the condition of the WHILE with the number `statement`, and places it.
#[tactic(auto, using(crate::proofs::Sorted::condition_known))]
fn check_condition(
    alloc: Global,
    scope: &Scope,
    cond: &StExpr,
    statement: u32,
) -> Result<PlacedExpr, StCheckErr>
    ensures told { Tells result (checks.own_faults scope.now statement (loop (view_expr cond.now) no_stms)) }
    ensures placed { IfOk result (λ e. expr_view e ≡ placing.placed scope.now (view_expr cond.now)) }
{
    let mut sort = None;
    let placed = place_expr(alloc, scope, cond, &mut sort)?;
    if !is_boolean(sort) {
        if !knows(alloc, scope, cond)? {
            return Err(StCheckErr::StUnknown { statement });
        }
        return Err(StCheckErr::StMismatch { statement });
    }
    Ok(placed)
}

/// Checks statements, of which the first has the number `first`, and places them. Answers the number of the statement after
/// them.
#[cycle(body)]
pub fn check_body(
    alloc: Global,
    scope: &Scope,
    body: &[Stmt],
    first: u32,
    found: &mut Vec<PlacedStmt>,
) -> Result<u32, StCheckErr>
    requires few { first + checks.stms_count (view_stmts body.now) < 2 ^ 32 }
    requires none { found.old.items ≡ [] }
    ensures told { Counts result (first + checks.stms_count (view_stmts body.now))
        (checks.stms_faults scope.now first (view_stmts body.now)) }
    ensures placed { OnOk result (stmts_view found.new.items ≡ placing.placed_stms scope.now (view_stmts body.now)) }
{
    let mut next = first;
    for stmt in body {
        next = check_one(alloc, scope, stmt, next, found)?;
    }
    Ok(next)
}

/// Checks a statement with the number `number` and those inside it, and adds it to those found. Answers the number of the
/// statement after it.
#[cycle(body)]
fn check_one(
    alloc: Global,
    scope: &Scope,
    stmt: &Stmt,
    number: u32,
    found: &mut Vec<PlacedStmt>,
) -> Result<u32, StCheckErr>
    requires { number + checks.stm_count (view_stmt stmt.now) < 2 ^ 32 }
    ensures told { Counts result (number + checks.stm_count (view_stmt stmt.now))
        (checks.stm_faults scope.now number (view_stmt stmt.now)) }
    ensures placed { OnOk result (map stmt_view found.new.items
        ≡ map stmt_view found.old.items ++ placing.placed_stm scope.now (view_stmt stmt.now) ∷ []) }
{
    match stmt {
        Stmt::Assign { target, value } => {
            check_assignment(alloc, scope, target.as_slice(), value, number, found)?;
            Ok(number + 1)
        }
        Stmt::If { branches, other } => {
            let mut placed = Vec::with_capacity(alloc, branches.len())?;
            let next = check_choice(alloc, scope, branches.as_slice(), number, &mut placed)?;
            match other {
                Some(body) => {
                    let mut rest = Vec::with_capacity(alloc, body.len())?;
                    let next = check_body(alloc, scope, body.as_slice(), next, &mut rest)?;
                    push_choice(found, placed, rest)?;
                    Ok(next)
                }
                None => {
                    push_choice(found, placed, Vec::new(alloc))?;
                    Ok(next)
                }
            }
        }
        Stmt::While { cond, body } => {
            let cond = check_condition(alloc, scope, cond, number)?;
            let mut inner = Vec::with_capacity(alloc, body.len())?;
            let next = check_body(alloc, scope, body.as_slice(), number + 1, &mut inner)?;
            push_loop(alloc, found, cond, inner)?;
            Ok(next)
        }
    }
}

/// Checks the branches of the IF with the number `number`, and places them. Its conditions come first: where something inside
/// a branch is wrong, they are all asked before that is told.
#[cycle(body)]
#[tactic(auto, using(crate::proofs::Firsts::fronts, crate::proofs::Sorted::conditions_known))]
fn check_choice(
    alloc: Global,
    scope: &Scope,
    branches: &[StBranch],
    number: u32,
    found: &mut Vec<PlacedBranch>,
) -> Result<u32, StCheckErr>
    requires few { number + 1 + checks.branches_count (view_branches branches.now) < 2 ^ 32 }
    requires none { found.old.items ≡ [] }
    ensures told { Counts result (number + 1 + checks.branches_count (view_branches branches.now))
        (checks.own_faults scope.now number (choice (view_branches branches.now) no_other)
        ++ checks.branches_faults scope.now (number + 1) (view_branches branches.now)) }
    ensures placed { OnOk result (branches_view found.new.items ≡ placing.placed_branches scope.now (view_branches branches.now)) }
{
    let mut booleans = true;
    match check_branches(alloc, scope, branches, number + 1, &mut booleans, found) {
        Ok(next) => {
            if !booleans {
                check_conditions(alloc, scope, branches, number)?;
            }
            Ok(next)
        }
        Err(error) => {
            check_conditions(alloc, scope, branches, number)?;
            Err(error)
        }
    }
}

/// Checks the statements inside the branches of an IF, of which the first has the number `first`, places the branches, and
/// tells whether their conditions are BOOL.
#[cycle(body)]
#[tactic(auto, using(crate::proofs::Listed::and_later))]
fn check_branches(
    alloc: Global,
    scope: &Scope,
    branches: &[StBranch],
    first: u32,
    booleans: &mut bool,
    found: &mut Vec<PlacedBranch>,
) -> Result<u32, StCheckErr>
    requires few { first + checks.branches_count (view_branches branches.now) < 2 ^ 32 }
    requires none { found.old.items ≡ [] }
    ensures told { Counts result (first + checks.branches_count (view_branches branches.now))
        (checks.branches_faults scope.now first (view_branches branches.now)) }
    ensures placed { OnOk result (branches_view found.new.items ≡ placing.placed_branches scope.now (view_branches branches.now)) }
    ensures sorted { OnOk result (booleans.new ≡ checks.boolean_conditions scope.now (view_branches branches.now)) }
{
    *booleans = true;
    let mut next = first;
    for branch in branches {
        let mut sort = None;
        let cond = place_expr(alloc, scope, &branch.cond, &mut sort)?;
        *booleans = both(*booleans, is_boolean(sort));
        let mut body = Vec::with_capacity(alloc, branch.body.len())?;
        next = check_body(alloc, scope, branch.body.as_slice(), next, &mut body)?;
        push_branch(alloc, found, cond, body)?;
    }
    Ok(next)
}
