//! The statement that gives an `if` its value.

ghost use Rattle.std.specs.Prelude.{◌≡◌, IfOk};
ghost use Rattle.st_ast.specs.Tree.{assign, choice, no_stms, stms, other as else_of};
ghost use Rattle.st_ast.specs.View.{view_branch, view_branches, view_expr, view_stmt, view_stmts};
ghost use Rattle.plc_expr.specs.Texts.{case_text};

use cif_base::{Boxed, Items, Memory, Text};
use st_ast::{StBranch, StExpr, Stmt};
use std::alloc::Global;

/// The variable is set to a value.
fn setting(alloc: Global, name: &Text, value: Boxed<StExpr>) -> Result<Boxed<Stmt>, Memory>
    ensures { IfOk result (λ s. view_stmt s ≡ assign name.now (view_expr value)) }
{
    let target = name.copy(alloc)?;
    let value = value.into_inner();
    Boxed::new(alloc, Stmt::Assign { target, value })
}

/// The one statement that sets the variable to a value.
fn setting_alone(alloc: Global, name: &Text, value: Boxed<StExpr>) -> Result<Items<Stmt>, Memory>
    ensures { IfOk result (λ ss. view_stmts ss ≡ stms (assign name.now (view_expr value)) no_stms) }
{
    Items::only(alloc, setting(alloc, name, value)?.into_inner())
}

/// Where the condition holds, the variable is set to the value.
pub fn branch_of(
    alloc: Global,
    name: &Text,
    cond: Boxed<StExpr>,
    value: Boxed<StExpr>,
) -> Result<Boxed<StBranch>, Memory>
    ensures { IfOk result
        (λ b. view_branch b ≡ (view_expr cond, stms (assign name.now (view_expr value)) no_stms)) }
{
    let body = setting_alone(alloc, name, value)?;
    let cond = cond.into_inner();
    Boxed::new(alloc, StBranch { cond, body })
}

#[tactic(auto, using(crate::proofs::Joining::view_if))]
fn selection(
    alloc: Global,
    branches: Items<StBranch>,
    other: Items<Stmt>,
) -> Result<Boxed<Stmt>, Memory>
    ensures { IfOk result (λ s. view_stmt s ≡ choice (view_branches branches) (else_of (view_stmts other))) }
{
    let other = Some(other);
    Boxed::new(alloc, Stmt::If { branches, other })
}

/// The branches, and else the variable is set to the last value.
pub fn case_of(
    alloc: Global,
    name: &Text,
    branches: Items<StBranch>,
    value: Boxed<StExpr>,
) -> Result<Boxed<Stmt>, Memory>
    ensures { IfOk result (λ s. view_stmt s ≡ case_text name.now (view_branches branches) (view_expr value)) }
{
    if branches.is_empty() {
        return setting(alloc, name, value);
    }
    selection(alloc, branches, setting_alone(alloc, name, value)?)
}
