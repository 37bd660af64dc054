//! All cases, by workers.

ghost use Rattle.std.specs.Prelude.{◌≡◌, ◌+◌, ◌<◌, ◌≤◌, ◌^◌, length, All, IfOk, IfErr};
ghost use Rattle.st_ast.specs.View.{view};
ghost use Rattle.plc_rows.specs.Told.{cases_of};
ghost use Rattle.plc_rows.specs.declared.row.Rows as rows;
ghost use Rattle.cif_batch.specs.CaseTexts.{AreCaseTexts, IsFirstStopped};
ghost use Rattle.cif_batch.specs.Parts.{AreParts, IsPart, Joins, StopsJoining};

use crate::error::CaseErr;
use crate::gate::Gate;
use crate::part::texts_of_part;
use cif_base::{Items, Text};
use plc_rows::{Cases, Rows};
use st_check::Checked;
use std::alloc::{AllocError, Global};
use std::thread;
use std::thread::Threads;

/// The tables of all parts one after the other, or the error of the first part that has one.
fn joined(alloc: Global, parts: Vec<Result<Items<Text>, CaseErr>>) -> Result<Items<Text>, CaseErr>
    ensures all { IfOk result (λ texts. Joins parts.items texts) }
    ensures first { IfErr result (StopsJoining parts.items) }
{
    let mut all = Items::new(alloc);
    for part in parts {
        match part {
            Ok(texts) => all.append(texts)?,
            Err(error) => return Err(error),
        }
    }
    Ok(all)
}

/// What workers made of so many cases each.
fn parts_of<R: Threads + Sync, G: Gate + Sync>(
    rt: &R,
    alloc: Global,
    program: &Checked,
    cases: &[Rows],
    size: usize,
    gate: &G,
) -> Result<Vec<Result<Items<Text>, CaseErr>>, AllocError>
    requires size { 0 < size }
    requires few { length cases.now < 2 ^ 32 }
    requires few_rows { All (λ (c : rows.Rows). length c.rows < 2 ^ 32) cases.now }
    ensures { IfOk result (λ parts. AreParts (view program.now) size 0 cases.now parts.items) }
{
    let work = |start: usize, part: &[Rows]| -> Result<Items<Text>, CaseErr>
        requires { (start + length part.now < 2 ^ 32) × All (λ (c : rows.Rows). length c.rows < 2 ^ 32) part.now }
        ensures { IsPart (view program.entry.now) start part.now result }
    { texts_of_part(alloc, program, start, part, gate) };
    let parts = thread::map_chunks(rt, alloc, cases, size, &work)?;
    Ok(parts)
}

/// The output table of each case by itself, from the memory of the declarations on, in the order of the cases; or the first case in
/// order with a scan that ends early, whatever a later case does sooner. At most `workers` threads replay the cases, each a run of
/// neighbours; the work of each case enters the gate once as it begins, with the number of the case, counted from 1.
pub fn batch<R: Threads + Sync, G: Gate + Sync>(
    rt: &R,
    alloc: Global,
    program: &Checked,
    cases: &Cases,
    workers: u32,
    gate: &G,
) -> Result<Vec<Text>, CaseErr>
    requires workers { (1 ≤ workers) × (workers ≤ 64) }
    requires few { length cases.now.cases < 2 ^ 32 }
    requires few_rows { All (λ (c : rows.Rows). length c.rows < 2 ^ 32) cases.now.cases }
    ensures texts { IfOk result (λ texts. AreCaseTexts (view program.now) (cases_of cases.now.cases) texts.items) }
    ensures stops { IfErr result (IsFirstStopped (view program.now) (cases_of cases.now.cases)) }
{
    let cases = cases.cases.as_slice();
    if cases.is_empty() {
        return Ok(Vec::new(alloc));
    }
    let size = cases.len().div_ceil(workers as usize);
    let parts = parts_of(rt, alloc, program, cases, size, gate)?;
    Ok(joined(alloc, parts)?.into_vec())
}
