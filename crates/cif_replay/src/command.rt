//! What `replay` does, and what it promises.

ghost use Rattle.std.specs.Prelude.{◌≡◌, ◌≤◌, ◌⊎◌, ℕ, List, IfOk, IfErr};
ghost use Rattle.cif_io.specs.Written.{grown};
ghost use Rattle.st_ast.specs.ReadsAs.{ReadsAsProgram};
ghost use Rattle.st_ast.specs.View.{view};
ghost use Rattle.st_ast.specs.Exec.{OutOfTurns};
ghost use Rattle.st_scan.specs.Endings.{stopped};
ghost use Rattle.st_scan.specs.declared.error.ScanErr.{ScanErr};
ghost use Rattle.plc_rows.specs.declared.error.RowErr.{RowErr};
ghost use Rattle.cif_run.specs.Works.{Comes, Stops, reading, writing};
ghost use Rattle.cif_run.specs.declared.status.StRefusal.{StRefusal};
ghost use Rattle.cif_replay.specs.Replaying.{AreRowsRefused, IsStRefused, IsTableFor, StopsAt};
ghost use Rattle.cif_replay.specs.Replays.{OfBoth, OfFirst, replay_of, replay_work};

use crate::programs::program_of;
use crate::tables::rows_table;
use crate::words::Replay;
use cif_io::{Files, Sink};
use cif_run::{Command, Ended, Status, read_file, run};
use st_check::Checked;
use std::alloc::Global;

/// The most bytes of a program.
const ST_LIMIT: u32 = 16_777_216;

/// The most bytes of rows.
const ROWS_LIMIT: u32 = 67_108_864;

/// The program in the first file.
fn first_program<F: Files>(
    alloc: Global,
    asked: &Replay<'_>,
    files: &mut F,
) -> Result<Checked, Ended>
    ensures reads { IfOk result (λ p. OfFirst (F.content files.old) (replay_of asked.now) (λ st. ReadsAsProgram st (view p))) }
    ensures stops { IfErr result (Stops (replay_work (replay_of asked.now) (F.content files.old))
        (reading (F.content files.old) (F.faults files.old) (F.faults files.new) (F.most files.new))) }
    ensures kept { (n : List ℕ) → F.content files.new n ≡ F.content files.old n }
    ensures faults_stay_or_rise { (n : List ℕ) → F.faults files.old n ≤ F.faults files.new n }
    ensures most_stays_or_rises { (n : List ℕ) → F.most files.old n ≤ F.most files.new n }
{
    match read_file(alloc, 1, asked.st, ST_LIMIT, files) {
        Ok(text) => program_of(alloc, text.as_slice()),
        Err(ended) => Err(ended),
    }
}

impl<'a> Command for Replay<'a> {
    ghost use Rattle.cif_replay.specs.Replays.{replay_of, replay_work};

    ghost work = { λ r content. replay_work (replay_of r) content };

    fn text<F: Files>(&self, alloc: Global, files: &mut F) -> Result<Vec<u8>, Ended> {
        let program = first_program(alloc, self, files)?;
        match read_file(alloc, 2, self.rows, ROWS_LIMIT, files) {
            Ok(text) => rows_table(alloc, &program, text.as_slice()),
            Err(ended) => Err(ended),
        }
    }
}

/// Reads a Structured Text program (IEC 61131-3) and a file of rows, makes a scan for each row, and writes the table of the
/// program's outputs after each.
pub fn replay<F: Files, O: Sink>(
    alloc: Global,
    asked: &Replay<'_>,
    files: &mut F,
    out: &mut O,
) -> Ended
    ensures came { Comes (replay_work (replay_of asked.now) (F.content files.old))
        (reading (F.content files.old) (F.faults files.old) (F.faults files.new) (F.most files.new))
        (writing (O.written out.old) (O.written out.new) (O.faults out.old) (O.faults out.new)) result }
    // After Done the table of the scans was written.
    ensures replayed { result.status ≡ Status.Done → (text : List ℕ)
        × OfBoth (F.content files.old) (replay_of asked.now) (λ st rows. IsTableFor st rows text)
        × (O.written out.new ≡ grown (O.written out.old) text) }
    // A program is refused by a rule that it breaks, and rows by the first one.
    ensures program_refused { (why : StRefusal) → result.status ≡ Status.StRefused why →
        OfFirst (F.content files.old) (replay_of asked.now) (λ st. IsStRefused st why) }
    ensures rows_refused { (why : RowErr) → result.status ≡ Status.RowRefused why →
        OfBoth (F.content files.old) (replay_of asked.now) (λ st rows. AreRowsRefused st rows why) }
    // The first scan that does not end is told.
    ensures scan_fault { (k : ℕ) (e : ScanErr) → result.status ≡ Status.ScanFault k e → (e ≡ ScanErr.Budget → ⊥)
        × OfBoth (F.content files.old) (replay_of asked.now) (λ st rows. StopsAt st rows k (stopped e)) }
    ensures budget { (k : ℕ) → result.status ≡ Status.Budget k →
        OfBoth (F.content files.old) (replay_of asked.now) (λ st rows. StopsAt st rows k OutOfTurns) }
    ensures kept { (n : List ℕ) → F.content files.new n ≡ F.content files.old n }
    ensures faults_stay_or_rise { (n : List ℕ) → F.faults files.old n ≤ F.faults files.new n }
    ensures most_stays_or_rises { (n : List ℕ) → F.most files.old n ≤ F.most files.new n }
    ensures out_faults_stay_or_rise { O.faults out.old ≤ O.faults out.new }
{
    run(alloc, asked, files, out)
}
