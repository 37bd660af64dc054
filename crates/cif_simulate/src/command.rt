//! What `simulate` does, and what it promises.

ghost use Rattle.std.specs.Prelude.{◌≡◌, ◌≤◌, ℕ, List};
ghost use Rattle.cif_io.specs.Written.{grown};
ghost use Rattle.cif_sim_model.specs.Simulation.{Runs, StopsAt, first_text, script_text};
ghost use Rattle.cif_sim_names.specs.Sources.{names_of};
ghost use Rattle.cif_source.specs.Step.{system_of};
ghost use Rattle.cif_run.specs.Works.{Comes, reading, writing};
ghost use Rattle.cif_run.specs.declared.status.ProfileWhy.{ProfileWhy};
ghost use Rattle.cif_refusal.specs.declared.refusal.Refusal.{Refusal};
ghost use Rattle.cif_run.specs.declared.status.StopWhy.{StopWhy};
ghost use Rattle.cif_accept.specs.Accepts.{OfSource, SourceHasTooMany, SourceRefused};
ghost use Rattle.cif_simulate.specs.Requests.{simulate_of};
ghost use Rattle.cif_simulate.specs.Scripts.{OfScript, cause};
ghost use Rattle.cif_simulate.specs.Simulates.{simulate_work};
ghost use Rattle.cif_simulate.specs.Words.{by_first, by_script};

use crate::request::{Simulate, Which};
use crate::running::{run_by_first, run_by_script};
use cif_accept::accept_file;
use cif_io::{Files, Sink};
use cif_run::{Ended, Status};
use std::alloc::Global;

/// Reads the source and writes the lines of the run.
fn write_run<F: Files, O: Sink>(
    alloc: Global,
    asked: &Simulate<'_>,
    files: &mut F,
    out: &mut O,
) -> Ended
    ensures came { Comes (simulate_work (simulate_of asked.now) (F.content files.old))
        (reading (F.content files.old) (F.faults files.old) (F.faults files.new) (F.most files.new))
        (writing (O.written out.old) (O.written out.new) (O.faults out.old) (O.faults out.new)) result }
    ensures kept { (n : List ℕ) → F.content files.new n ≡ F.content files.old n }
    ensures faults_stay_or_rise { (n : List ℕ) → F.faults files.old n ≤ F.faults files.new n }
    ensures most_stays_or_rises { (n : List ℕ) → F.most files.old n ≤ F.most files.new n }
    ensures out_faults_stay_or_rise { O.faults out.old ≤ O.faults out.new }
{
    let net = match accept_file(alloc, asked.file, files) {
        Ok(net) => net,
        Err(ended) => return ended,
    };
    match &asked.which {
        Which::Script(script) => run_by_script(alloc, &net, script, files, out),
        Which::First(steps) => run_by_first(alloc, &net, steps.count, out),
    }
}

/// Reads the source (CIF 3 language reference) of the first file and writes the lines of a run of it: by the script in the second file,
/// or of at most so many steps, each of the lowest-numbered event that has one. Each line is written before the next line of the script
/// is read or the next step is made.
pub fn simulate<F: Files, O: Sink>(
    alloc: Global,
    asked: &Simulate<'_>,
    files: &mut F,
    out: &mut O,
) -> Ended
    ensures came { Comes (simulate_work (simulate_of asked.now) (F.content files.old))
        (reading (F.content files.old) (F.faults files.old) (F.faults files.new) (F.most files.new))
        (writing (O.written out.old) (O.written out.new) (O.faults out.old) (O.faults out.new)) result }
    // After Done the script ran to its end, and the lines of its run were written.
    ensures simulated { result.status ≡ Status.Done → (script : List ℕ) → (simulate_of asked.now).which ≡ by_script script →
        OfScript (F.content files.old) asked.now.file.now script (λ t bytes. Runs (names_of t) (system_of t) bytes
        × (O.written out.new ≡ grown (O.written out.old) (script_text (names_of t) (system_of t) bytes))) }
    // Or the lines of the steps of the first events were written.
    ensures simulated_first { result.status ≡ Status.Done → (steps : ℕ) → (simulate_of asked.now).which ≡ by_first steps →
        OfSource (F.content files.old) asked.now.file.now (λ t.
        O.written out.new ≡ grown (O.written out.old) (first_text (names_of t) (system_of t) steps)) }
    // After Stopped the script stops at that line for that cause, and the lines of its run up to there were written.
    ensures stopped { (k : ℕ) (why : StopWhy) → result.status ≡ Status.Stopped k why →
        (script : List ℕ) × ((simulate_of asked.now).which ≡ by_script script)
        × OfScript (F.content files.old) asked.now.file.now script (λ t bytes. StopsAt (names_of t) (system_of t) bytes k (cause why)
        × (O.written out.new ≡ grown (O.written out.old) (script_text (names_of t) (system_of t) bytes))) }
    // A source is refused for a cause that it has.
    ensures refused { (why : Refusal) → result.status ≡ Status.Refused why →
        SourceRefused (F.content files.old) asked.now.file.now why }
    ensures too_many { (count : ℕ) → result.status ≡ Status.OutsideProfile (ProfileWhy.TooManyChoices count) →
        SourceHasTooMany (F.content files.old) asked.now.file.now count }
    ensures kept { (n : List ℕ) → F.content files.new n ≡ F.content files.old n }
    ensures faults_stay_or_rise { (n : List ℕ) → F.faults files.old n ≤ F.faults files.new n }
    ensures most_stays_or_rises { (n : List ℕ) → F.most files.old n ≤ F.most files.new n }
    ensures out_faults_stay_or_rise { O.faults out.old ≤ O.faults out.new }
{
    write_run(alloc, asked, files, out)
}
