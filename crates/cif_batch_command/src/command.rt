//! What `batch` does, and what it promises.

ghost use Rattle.std.specs.Prelude.{◌≡◌, ◌≤◌, ℕ, List, IfOk, IfErr};
ghost use Rattle.cif_io.specs.Written.{grown};
ghost use Rattle.st_ast.specs.ReadsAs.{ReadsAsProgram};
ghost use Rattle.st_ast.specs.View.{view};
ghost use Rattle.st_ast.specs.Exec.{OutOfTurns};
ghost use Rattle.st_scan.specs.Endings.{stopped};
ghost use Rattle.st_scan.specs.declared.error.ScanErr.{ScanErr};
ghost use Rattle.plc_rows.specs.declared.error.RowErr.{RowErr};
ghost use Rattle.cif_run.specs.Works.{Comes, Stops, reading, writing};
ghost use Rattle.cif_run.specs.declared.status.StRefusal.{StRefusal};
ghost use Rattle.cif_replay.specs.Replaying.{IsStRefused};
ghost use Rattle.cif_replay.specs.Judged.{OfBoth, OfFirst};
ghost use Rattle.cif_batch_command.specs.Batching.{AreCasesRefused, AreTablesFor, CaseStopsAt};
ghost use Rattle.cif_batch_command.specs.Batches.{batch_of, batch_work, files_of};

use crate::tables::cases_text;
use crate::words::Batch;
use cif_batch::Gate;
use cif_io::{Files, Sink};
use cif_replay::program_of;
use cif_run::{Ended, Status, put_text, read_file};
use st_check::Checked;
use std::alloc::Global;
use std::thread::Threads;

/// The most bytes of a program.
const ST_LIMIT: u32 = 16_777_216;

/// The most bytes of cases.
const CASES_LIMIT: u32 = 67_108_864;

/// The program in the first file.
fn first_program<F: Files>(
    alloc: Global,
    asked: &Batch<'_>,
    files: &mut F,
) -> Result<Checked, Ended>
    ensures reads { IfOk result (λ p. OfFirst (F.content files.old) (files_of (batch_of asked.now)) (λ st. ReadsAsProgram st (view p))) }
    ensures stops { IfErr result (Stops (batch_work (batch_of asked.now) (F.content files.old))
        (reading (F.content files.old) (F.faults files.old) (F.faults files.new) (F.most files.new))) }
    ensures kept { (n : List ℕ) → F.content files.new n ≡ F.content files.old n }
    ensures faults_stay_or_rise { (n : List ℕ) → F.faults files.old n ≤ F.faults files.new n }
    ensures most_stays_or_rises { (n : List ℕ) → F.most files.old n ≤ F.most files.new n }
{
    match read_file(alloc, 1, asked.st, ST_LIMIT, files) {
        Ok(text) => program_of(alloc, text.as_slice()),
        Err(ended) => Err(ended),
    }
}

/// The tables of the cases, or how the call ends without them.
fn text<R: Threads + Sync, F: Files, G: Gate + Sync>(
    rt: &R,
    alloc: Global,
    asked: &Batch<'_>,
    files: &mut F,
    gate: &G,
) -> Result<Vec<u8>, Ended>
    ensures writes { IfOk result (λ text. (batch_work (batch_of asked.now) (F.content files.old)).writes text.items) }
    ensures stops { IfErr result (Stops (batch_work (batch_of asked.now) (F.content files.old))
        (reading (F.content files.old) (F.faults files.old) (F.faults files.new) (F.most files.new))) }
    ensures kept { (n : List ℕ) → F.content files.new n ≡ F.content files.old n }
    ensures faults_stay_or_rise { (n : List ℕ) → F.faults files.old n ≤ F.faults files.new n }
    ensures most_stays_or_rises { (n : List ℕ) → F.most files.old n ≤ F.most files.new n }
{
    let program = first_program(alloc, asked, files)?;
    match read_file(alloc, 2, asked.cases, CASES_LIMIT, files) {
        Ok(text) => cases_text(rt, alloc, &program, text.as_slice(), gate),
        Err(ended) => Err(ended),
    }
}

/// Writes the tables, up to what is told on the standard error.
fn run<R: Threads + Sync, F: Files, O: Sink, G: Gate + Sync>(
    rt: &R,
    alloc: Global,
    asked: &Batch<'_>,
    files: &mut F,
    out: &mut O,
    gate: &G,
) -> Ended
    ensures came { Comes (batch_work (batch_of asked.now) (F.content files.old))
        (reading (F.content files.old) (F.faults files.old) (F.faults files.new) (F.most files.new))
        (writing (O.written out.old) (O.written out.new) (O.faults out.old) (O.faults out.new)) result }
    ensures kept { (n : List ℕ) → F.content files.new n ≡ F.content files.old n }
    ensures faults_stay_or_rise { (n : List ℕ) → F.faults files.old n ≤ F.faults files.new n }
    ensures most_stays_or_rises { (n : List ℕ) → F.most files.old n ≤ F.most files.new n }
    ensures out_faults_stay_or_rise { O.faults out.old ≤ O.faults out.new }
{
    match text(rt, alloc, asked, files, gate) {
        Ok(text) => put_text(alloc, text, out),
        Err(ended) => ended,
    }
}

/// Reads a Structured Text program (IEC 61131-3) and a file of cases, replays each case by itself from the memory of the declarations
/// on, and writes the tables of the program's outputs in the order of the cases. The work of each case enters the gate as it begins.
pub fn batch<R: Threads + Sync, F: Files, O: Sink, G: Gate + Sync>(
    rt: &R,
    alloc: Global,
    asked: &Batch<'_>,
    files: &mut F,
    out: &mut O,
    gate: &G,
) -> Ended
    ensures came { Comes (batch_work (batch_of asked.now) (F.content files.old))
        (reading (F.content files.old) (F.faults files.old) (F.faults files.new) (F.most files.new))
        (writing (O.written out.old) (O.written out.new) (O.faults out.old) (O.faults out.new)) result }
    // After Done the tables of the cases were written, one after the other.
    ensures batched { result.status ≡ Status.Done → (text : List ℕ)
        × OfBoth (F.content files.old) (files_of (batch_of asked.now)) (λ st cases. AreTablesFor st cases text)
        × (O.written out.new ≡ grown (O.written out.old) text) }
    // A program is refused by a rule that it breaks, and cases by the first one.
    ensures program_refused { (why : StRefusal) → result.status ≡ Status.StRefused why →
        OfFirst (F.content files.old) (files_of (batch_of asked.now)) (λ st. IsStRefused st why) }
    ensures cases_refused { (why : RowErr) → result.status ≡ Status.RowRefused why →
        OfBoth (F.content files.old) (files_of (batch_of asked.now)) (λ st cases. AreCasesRefused st cases why) }
    // The first case in order that does not end is told, by the row of the file.
    ensures scan_fault { (k : ℕ) (e : ScanErr) → result.status ≡ Status.ScanFault k e → (e ≡ ScanErr.Budget → ⊥)
        × OfBoth (F.content files.old) (files_of (batch_of asked.now)) (λ st cases. CaseStopsAt st cases k (stopped e)) }
    ensures budget { (k : ℕ) → result.status ≡ Status.Budget k →
        OfBoth (F.content files.old) (files_of (batch_of asked.now)) (λ st cases. CaseStopsAt st cases k OutOfTurns) }
    ensures kept { (n : List ℕ) → F.content files.new n ≡ F.content files.old n }
    ensures faults_stay_or_rise { (n : List ℕ) → F.faults files.old n ≤ F.faults files.new n }
    ensures most_stays_or_rises { (n : List ℕ) → F.most files.old n ≤ F.most files.new n }
    ensures out_faults_stay_or_rise { O.faults out.old ≤ O.faults out.new }
{
    run(rt, alloc, asked, files, out, gate)
}
