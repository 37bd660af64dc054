//! From the text of cases to the tables of the scans over them.

ghost use Rattle.std.specs.Prelude.{◌≡◌, ◌<◌, ◌≤◌, ℕ, Some, length, flat_map, IfOk, IfErr};
ghost use Rattle.st_ast.specs.View.{view};
ghost use Rattle.plc_rows.specs.Told.{cases_of};
ghost use Rattle.cif_replay.specs.Ends.{IsNamed};
ghost use Rattle.cif_replay.specs.Judged.{JudgeEnds};
ghost use Rattle.cif_batch.specs.CaseTexts as cases;
ghost use Rattle.cif_batch_command.specs.Batching.{AreTables, AreTablesOf, CasesEnd};
ghost use Rattle.cif_batch_command.specs.Batches.{cases_judge};

use cif_base::{Memory, Text};
use cif_batch::{CaseErr, Gate};
use cif_replay::{row_status, scan_ended};
use cif_run::{Ended, Status};
use plc_rows::{Cases, Rows};
use st_check::Checked;
use std::alloc::Global;
use std::thread::Threads;

/// The number of threads that read cases, replay them and drop them.
const WORKERS: u32 = 4;

/// The row of the file, counted from 1 over all cases, of a row of a case.
fn row_of_file(rows: &[Rows], case: u32, row: u32) -> u32
    requires case { (0 < case) × (case ≤ length rows.now) }
    requires few { (row ≤ 100000) × (length (flat_map (λ c. c) (cases_of rows.now)) ≤ 100000) }
    ensures { result ≡ cases.row_of_file (cases_of rows.now) case row }
{
    let mut found = row;
    for k in 0..case as usize - 1 {
        found += rows[k].rows.len() as u32;
    }
    found
}

/// Texts one after the other.
fn joined(alloc: Global, texts: Vec<Text>) -> Result<Vec<u8>, Memory>
    ensures { IfOk result (λ all. all.items ≡ flat_map (λ t. t) texts.items) }
{
    let mut all = Vec::new(alloc);
    for text in texts {
        all.extend_from_slice(text.as_slice())?;
    }
    Ok(all)
}

/// The tables of cases one after the other, or how a call ends that has none.
fn tables<R: Threads + Sync, G: Gate + Sync>(
    rt: &R,
    alloc: Global,
    program: &Checked,
    cases: &Cases,
    gate: &G,
) -> Result<Vec<u8>, Ended>
    requires few { length (flat_map (λ c. c) (cases_of cases.now.cases)) ≤ 100000 }
    requires full { length cases.now.cases ≤ 100000 }
    ensures tables { IfOk result (λ text. AreTables (view program.now) (cases_of cases.now.cases) text.items) }
    ensures ends { IfErr result (λ e. CasesEnd (view program.now) (cases_of cases.now.cases) e.status) }
    ensures named { IfErr result (λ e. IsNamed (view program.now) e.status e.variable) }
{
    let vars = program.program().vars.as_slice();
    match cif_batch::batch(rt, alloc, program, cases, WORKERS, gate) {
        Ok(texts) => match joined(alloc, texts) {
            Ok(text) => Ok(text),
            Err(Memory) => Err(Ended::plain(alloc, Status::Memory)),
        },
        Err(CaseErr::Fault { case, row, error }) => {
            let row = row_of_file(cases.cases.as_slice(), case, row);
            Err(scan_ended(alloc, vars, row, error))
        }
        Err(CaseErr::Memory) => Err(Ended::plain(alloc, Status::Memory)),
    }
}

/// The tables of the scans of a program over a text of cases.
pub fn cases_text<R: Threads + Sync, G: Gate + Sync>(
    rt: &R,
    alloc: Global,
    program: &Checked,
    text: &[u8],
    gate: &G,
) -> Result<Vec<u8>, Ended>
    requires { length text.now ≤ 67108864 }
    ensures tables { IfOk result (λ out. AreTablesOf (view program.now) text.now out.items) }
    ensures ends { IfErr result (λ e. JudgeEnds cases_judge (view program.now) text.now e.status) }
    ensures named { IfErr result (λ e. IsNamed (view program.now) e.status e.variable) }
{
    match cif_batch::read_cases(rt, alloc, text, program, WORKERS) {
        Ok(cases) => {
            let found = tables(rt, alloc, program, &cases, gate);
            cif_batch::drop_cases(rt, alloc, cases, WORKERS);
            found
        }
        Err(error) => Err(Ended::plain(alloc, row_status(error))),
    }
}
