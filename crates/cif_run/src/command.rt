//! A command over files, and its run: nothing goes to the output before the whole text is built.

ghost use Rattle.std.specs.Prelude.{◌≡◌, ◌≤◌, ℕ, List, Option, IfOk, IfErr};
ghost use Rattle.cif_run.specs.Groups.{group_of};
ghost use Rattle.cif_run.specs.Works.{Work, Comes, Stops, WroteIn, reading, text_work, writing};

use crate::ended::Ended;
use crate::status::Status;
use cif_io::{Files, Sink, SinkErr, put_all};
use std::alloc::Global;

/// What words of a command line ask for.
pub trait Command {
    /// What it does over files that are told to hold this.
    ghost work: { Self → (List ℕ → Option (List ℕ)) → Work };

    /// The text that it writes, or how it ends without one.
    fn text<F: Files>(&self, alloc: Global, files: &mut F) -> Result<Vec<u8>, Ended>
        ensures writes { IfOk result (λ text. (work self.now (F.content files.old)).writes text.items) }
        ensures stops { IfErr result (Stops (work self.now (F.content files.old))
            (reading (F.content files.old) (F.faults files.old) (F.faults files.new) (F.most files.new))) }
        ensures kept { (n : List ℕ) → F.content files.new n ≡ F.content files.old n }
        ensures faults_stay_or_rise { (n : List ℕ) → F.faults files.old n ≤ F.faults files.new n }
        ensures most_stays_or_rises { (n : List ℕ) → F.most files.old n ≤ F.most files.new n };
}

/// Writes a text that is built, up to what is told on the standard error.
pub fn put_text<O: Sink>(alloc: Global, text: Vec<u8>, out: &mut O) -> Ended
    ensures wrote { WroteIn (text_work text.items) text.items
        (writing (O.written out.old) (O.written out.new) (O.faults out.old) (O.faults out.new)) (group_of result.status) }
    ensures out_faults_stay_or_rise { O.faults out.old ≤ O.faults out.new }
{
    let status = match put_all(out, text.as_slice()) {
        Ok(()) => Status::Done,
        Err(SinkErr::Failed) => Status::WriteFault,
        Err(SinkErr::Memory) => Status::Memory,
    };
    Ended::plain(alloc, status)
}

/// Runs a command, up to what is told on the standard error.
#[tactic(auto, using(crate::proofs::CallLaws::put_comes))]
pub fn run<C: Command, F: Files, O: Sink>(
    alloc: Global,
    command: &C,
    files: &mut F,
    out: &mut O,
) -> Ended
    ensures came { Comes (C.work command.now (F.content files.old))
        (reading (F.content files.old) (F.faults files.old) (F.faults files.new) (F.most files.new))
        (writing (O.written out.old) (O.written out.new) (O.faults out.old) (O.faults out.new)) result }
    ensures kept { (n : List ℕ) → F.content files.new n ≡ F.content files.old n }
    ensures faults_stay_or_rise { (n : List ℕ) → F.faults files.old n ≤ F.faults files.new n }
    ensures most_stays_or_rises { (n : List ℕ) → F.most files.old n ≤ F.most files.new n }
    ensures out_faults_stay_or_rise { O.faults out.old ≤ O.faults out.new }
{
    match command.text(alloc, files) {
        Ok(text) => put_text(alloc, text, out),
        Err(ended) => ended,
    }
}
