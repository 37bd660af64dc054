//! The frame round the statements of the events of a class: a loop of rounds.

ghost use Rattle.std.specs.Prelude.{◌≡◌, IfOk, pos};
ghost use Rattle.st_ast.specs.Tree.{truth, number, assign};
ghost use Rattle.st_ast.specs.View.{view_expr, view_stmt, view_stmts};
ghost use Rattle.plc_model.specs.Frame.{fired, rounds_made, goes_on, one_more_round, one_round, loop_of};

use crate::names::{name_of_counter, name_of_mark};
use cif_base::{Boxed, Items, Memory};
use st_ast::{StExpr, StOrder, StTerm, Stmt};
use std::alloc::Global;

/// Whether a further round is to be made: something fired in the last one, and fewer than `bound` are made.
fn going_on(alloc: Global, bound: u32) -> Result<Boxed<StExpr>, Memory>
    ensures { IfOk result (λ e. view_expr e ≡ goes_on bound) }
{
    let mark = name_of_mark(alloc)?;
    let counter = name_of_counter(alloc)?;
    let left = Boxed::new(alloc, StExpr::Named(counter))?;
    let right = Boxed::new(alloc, StExpr::Int(i64::from(bound)))?;
    let op = StOrder::Lt;
    let mut parts = Items::new(alloc);
    parts.push(StExpr::Named(mark))?;
    parts.push(StExpr::Order { left, op, right })?;
    Boxed::new(alloc, StExpr::And(parts))
}

/// Sets or clears the mark that something fired.
pub fn marking(alloc: Global, is_set: bool) -> Result<Boxed<Stmt>, Memory>
    ensures { IfOk result (λ s. view_stmt s ≡ assign fired (truth is_set)) }
{
    let target = name_of_mark(alloc)?;
    let value = StExpr::Bool(is_set);
    Boxed::new(alloc, Stmt::Assign { target, value })
}

/// Counts a round.
fn counting(alloc: Global) -> Result<Boxed<Stmt>, Memory>
    ensures { IfOk result (λ s. view_stmt s ≡ one_more_round) }
{
    let target = name_of_counter(alloc)?;
    let counter = name_of_counter(alloc)?;
    let first = Boxed::new(alloc, StExpr::Named(counter))?;
    let mut rest = Items::new(alloc);
    rest.push(StTerm {
        minus: false,
        value: StExpr::Int(1),
    })?;
    let value = StExpr::Sum { first, rest };
    Boxed::new(alloc, Stmt::Assign { target, value })
}

/// One round: the mark is cleared, every event is tried, and the round is counted.
#[tactic(auto, using(crate::proofs::Building::statements))]
fn round(alloc: Global, tries: Items<Stmt>) -> Result<Items<Stmt>, Memory>
    ensures { IfOk result (λ ss. view_stmts ss ≡ one_round (view_stmts tries)) }
{
    let mut body = Items::new(alloc);
    body.push(marking(alloc, false)?.into_inner())?;
    body.append(tries)?;
    body.push(counting(alloc)?.into_inner())?;
    Ok(body)
}

/// Starts the count of rounds.
fn starting(alloc: Global) -> Result<Boxed<Stmt>, Memory>
    ensures { IfOk result (λ s. view_stmt s ≡ assign rounds_made (number (pos 0))) }
{
    let target = name_of_counter(alloc)?;
    let value = StExpr::Int(0);
    Boxed::new(alloc, Stmt::Assign { target, value })
}

/// The loop of rounds of these statements, which ends after a round in which nothing fired, or after `bound` rounds.
pub fn rounds(alloc: Global, bound: u32, tries: Items<Stmt>) -> Result<Items<Stmt>, Memory>
    ensures { IfOk result (λ ss. view_stmts ss ≡ loop_of bound (view_stmts tries)) }
{
    let body = round(alloc, tries)?;
    let mut all = Items::new(alloc);
    all.push(marking(alloc, true)?.into_inner())?;
    all.push(starting(alloc)?.into_inner())?;
    let cond = going_on(alloc, bound)?.into_inner();
    all.push(Stmt::While { cond, body })?;
    Ok(all)
}
