//! Statements (IEC 61131-3, "Statements"), executed on a memory with a number of loop turns. How many are left is handed on
//! in registers, and what ended the scan early in the caller's memory.

ghost use Rattle.std.specs.Prelude.{◌≡◌, ◌≤◌, suc, None, IfSome};
ghost use Rattle.st_ast.specs.Exec.{Act, Faulted, is_within, repeated};
ghost use Rattle.st_scan.specs.Endings.{LeavesAtMost, chosen, outcome_of, stopped};
ghost use Rattle.st_scan.specs.PlacedExec.{store_at, exec_at, exec_one_at, exec_choice_at};
ghost use Rattle.st_scan.specs.PlacedValues.{value_at};
ghost use Rattle.st_check.specs.PlacedView.{cond_view, stmt_view, stmts_view, branches_view};
ghost use Rattle.st_scan.specs.Told.{fault_of};

use crate::conditions::test;
use crate::error::ScanErr;
use crate::storing::put;
use crate::values::{ValueFault, value};
use st_ast::StTy;
use st_check::{PlacedBranch, PlacedCond, PlacedStmt};

/// What became of the branches of an IF: the turns that the one that was taken left, none was taken, or the scan ended.
#[derive(Clone, Copy)]
pub enum Chosen {
    Branch(u32),
    NoBranch,
    Stopped,
}

#[inline(always)]
fn has_value(ty: StTy, value: i64) -> bool
    ensures { result ≡ is_within ty value }
{
    match ty {
        StTy::Bool => true,
        StTy::Lint => true,
        StTy::Range { lo, hi } => lo <= value && value <= hi,
    }
}

/// Stores a value of a type at a place. Beyond the memory nothing is stored.
#[inline(always)]
fn assign(
    place: u32,
    ty: StTy,
    value: i64,
    memory: &mut [i64],
    turns: u32,
    why: &mut ScanErr,
) -> Option<u32>
    ensures is { store_at place ty value turns memory.old ≡ outcome_of result why.new memory.new }
    ensures less { IfSome result (λ left. left ≤ turns) }
{
    if !has_value(ty, value) {
        *why = ScanErr::SubrangeLeft {
            variable: place,
            value,
        };
        return None;
    }
    put(memory, place, value);
    Some(turns)
}

/// Ends a scan at a fault of an expression.
fn stop(fault: ValueFault, why: &mut ScanErr) -> Option<u32>
    ensures none { result ≡ None }
    ensures why { stopped why.new ≡ Faulted (fault_of fault) }
{
    *why = ScanErr::from(fault);
    None
}

/// Executes statements one after another. Answers how many of the turns are left.
#[cycle(run)]
pub fn run(body: &[PlacedStmt], memory: &mut [i64], turns: u32, why: &mut ScanErr) -> Option<u32>
    ensures is { exec_at (stmts_view body.now) turns memory.old ≡ outcome_of result why.new memory.new }
    ensures less { IfSome result (λ left. left ≤ turns) }
{
    let mut left = turns;
    for stmt in body {
        left = run_one(stmt, memory, left, why)?;
    }
    Some(left)
}

#[cycle(run)]
#[inline(always)]
fn run_one(stmt: &PlacedStmt, memory: &mut [i64], turns: u32, why: &mut ScanErr) -> Option<u32>
    ensures is { exec_one_at (stmt_view stmt.now) turns memory.old ≡ outcome_of result why.new memory.new }
    ensures less { IfSome result (λ left. left ≤ turns) }
{
    match stmt {
        PlacedStmt::Assign {
            place,
            ty,
            value: expr,
        } => {
            let mut fault = ValueFault::Overflow;
            match value(expr, memory, &mut fault) {
                Some(number) => assign(*place, *ty, number, memory, turns, why),
                None => stop(fault, why),
            }
        }
        PlacedStmt::If { branches, other } => {
            match choose(branches.as_slice(), memory, turns, why) {
                Chosen::Branch(left) => Some(left),
                Chosen::NoBranch => run(other.as_slice(), memory, turns, why),
                Chosen::Stopped => None,
            }
        }
        PlacedStmt::While { cond, body } => repeat(body.as_slice(), cond, memory, turns, why),
    }
}

/// Executes the first branch whose condition is TRUE, if there is one.
#[cycle(run)]
#[inline(always)]
fn choose(branches: &[PlacedBranch], memory: &mut [i64], turns: u32, why: &mut ScanErr) -> Chosen
    ensures is { (last : Act) → exec_choice_at (branches_view branches.now) last turns memory.old
        ≡ chosen result why.new memory.new turns last }
    ensures less { LeavesAtMost turns result }
{
    for branch in branches {
        let mut fault = ValueFault::Overflow;
        let Some(truth) = test(&branch.cond, memory, &mut fault) else {
            *why = ScanErr::from(fault);
            return Chosen::Stopped;
        };
        if truth {
            return match run(branch.body.as_slice(), memory, turns, why) {
                Some(left) => Chosen::Branch(left),
                None => Chosen::Stopped,
            };
        }
    }
    Chosen::NoBranch
}

/// Executes a body as long as a condition is TRUE, each time with one of the turns.
#[cycle(run)]
#[tactic(auto, using(crate::proofs::Loop::loops))]
fn repeat(
    body: &[PlacedStmt],
    cond: &PlacedCond,
    memory: &mut [i64],
    turns: u32,
    why: &mut ScanErr,
) -> Option<u32>
    ensures is { repeated (suc turns) (value_at (cond_view cond.now))
        (λ l m. exec_at (stmts_view body.now) l m) turns memory.old ≡ outcome_of result why.new memory.new }
    ensures less { IfSome result (λ left. left ≤ turns) }
{
    let mut left = turns;
    let mut fault = ValueFault::Overflow;
    'turns: loop {
        let Some(truth) = test(cond, memory, &mut fault) else {
            return stop(fault, why);
        };
        if !truth {
            return Some(left);
        }
        if left == 0 {
            *why = ScanErr::Budget;
            return None;
        }
        left = run(body, memory, left - 1, why)?;
    }
}
