//! IF statements.

ghost use Rattle.std.specs.Prelude.{◌≡◌, IfOk};
ghost use Rattle.st_ast.specs.Tree.{branches as branches_with, choice, no_branches, no_other, other as else_of};
ghost use Rattle.st_ast.specs.View.{view_branches, view_expr, view_stmt, view_stmts};
ghost use Rattle.plc_event_model.specs.Writes as w;

use cif_base::{Boxed, Items, Memory};
use st_ast::{StBranch, StExpr, Stmt};
use std::alloc::Global;

/// The first of the branches whose condition holds, and else the other statements.
#[tactic(auto, using(plc_expr_walk::proofs::Joining::view_if))]
fn with_other(
    alloc: Global,
    branches: Items<StBranch>,
    other: Items<Stmt>,
) -> Result<Boxed<Stmt>, Memory>
    ensures { IfOk result (λ s. view_stmt s ≡ choice (view_branches branches) (else_of (view_stmts other))) }
{
    let other = Some(other);
    Boxed::new(alloc, Stmt::If { branches, other })
}

/// The same, without ELSE where there are no other statements.
fn selection(
    alloc: Global,
    branches: Items<StBranch>,
    other: Items<Stmt>,
) -> Result<Boxed<Stmt>, Memory>
    ensures { IfOk result (λ s. view_stmt s ≡ choice (view_branches branches) (w.otherwise (view_stmts other))) }
{
    if other.is_empty() {
        return first_of(alloc, branches);
    }
    with_other(alloc, branches, other)
}

/// The statement with these branches and other statements, and the other statements alone where there is no branch.
pub(crate) fn chosen(
    alloc: Global,
    branches: Items<StBranch>,
    other: Items<Stmt>,
) -> Result<Items<Stmt>, Memory>
    ensures { IfOk result (λ ss. view_stmts ss ≡ w.chosen (view_branches branches) (view_stmts other)) }
{
    if branches.is_empty() {
        return Ok(other);
    }
    Items::only(alloc, selection(alloc, branches, other)?.into_inner())
}

/// The first of the branches whose condition holds.
pub(crate) fn first_of(alloc: Global, branches: Items<StBranch>) -> Result<Boxed<Stmt>, Memory>
    ensures { IfOk result (λ s. view_stmt s ≡ choice (view_branches branches) no_other) }
{
    let other = None;
    Boxed::new(alloc, Stmt::If { branches, other })
}

/// The statements where the test holds.
pub(crate) fn tested(
    alloc: Global,
    test: Boxed<StExpr>,
    body: Items<Stmt>,
) -> Result<Boxed<Stmt>, Memory>
    ensures { IfOk result
        (λ s. view_stmt s ≡ choice (branches_with (view_expr test) (view_stmts body) no_branches) no_other) }
{
    let cond = test.into_inner();
    let branches = Items::only(alloc, StBranch { cond, body })?;
    first_of(alloc, branches)
}
