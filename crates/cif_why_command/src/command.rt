//! What `why` does, and what it promises.

ghost use Rattle.std.specs.Prelude.{◌≡◌, ◌≤◌, ℕ, List, [], Some};
ghost use Rattle.cif_io.specs.Written.{grown};
ghost use Rattle.cif_sim_model.specs.Simulation.{Runs, StopsAt};
ghost use Rattle.cif_sim_names.specs.Sources.{names_of, told_of};
ghost use Rattle.cif_source.specs.Step.{system_of};
ghost use Rattle.cif_run.specs.Works.{Comes, reading, writing};
ghost use Rattle.cif_run.specs.declared.status.ProfileWhy.{ProfileWhy};
ghost use Rattle.cif_refusal.specs.declared.refusal.Refusal.{Refusal};
ghost use Rattle.cif_run.specs.declared.status.StopWhy.{StopWhy};
ghost use Rattle.cif_accept.specs.Accepts.{OfSource, SourceHasTooMany, SourceRefused};
ghost use Rattle.cif_simulate.specs.Scripts.{OfScript, cause};
ghost use Rattle.cif_why_command.specs.Requests.{why_of};
ghost use Rattle.cif_why_command.specs.Explains.{LacksEvent, event_of, explained, why_work};

use crate::explaining::{event_number, explain_by_script};
use crate::request::Why;
use cif_accept::accept_file;
use cif_io::{Files, Sink};
use cif_run::{Ended, Status};
use std::alloc::Global;

/// Reads the source and the script, and writes the reasons.
fn explain<F: Files, O: Sink>(alloc: Global, asked: &Why<'_>, files: &mut F, out: &mut O) -> Ended
    ensures came { Comes (why_work (why_of asked.now) (F.content files.old))
        (reading (F.content files.old) (F.faults files.old) (F.faults files.new) (F.most files.new))
        (writing (O.written out.old) (O.written out.new) (O.faults out.old) (O.faults out.new)) result }
    ensures kept { (n : List ℕ) → F.content files.new n ≡ F.content files.old n }
    ensures faults_stay_or_rise { (n : List ℕ) → F.faults files.old n ≤ F.faults files.new n }
    ensures most_stays_or_rises { (n : List ℕ) → F.most files.old n ≤ F.most files.new n }
    ensures out_faults_stay_or_rise { O.faults out.old ≤ O.faults out.new }
{
    let net = match accept_file(alloc, asked.file, files) {
        Ok(net) => net,
        Err(ended) => return ended,
    };
    match event_number(&net, asked.event) {
        Some(event) => explain_by_script(alloc, &net, asked.script, event, files, out),
        None => Ended::plain(alloc, Status::NoEvent),
    }
}

/// Reads the source (CIF 3 language reference) of the first file, follows the script in the second file silently, and writes the reasons
/// why the event has no step in the state reached, a line for each, or `enabled` where it has one. The text is built whole before it is
/// written.
pub fn why<F: Files, O: Sink>(alloc: Global, asked: &Why<'_>, files: &mut F, out: &mut O) -> Ended
    ensures came { Comes (why_work (why_of asked.now) (F.content files.old))
        (reading (F.content files.old) (F.faults files.old) (F.faults files.new) (F.most files.new))
        (writing (O.written out.old) (O.written out.new) (O.faults out.old) (O.faults out.new)) result }
    // After Done the script ran to its end, and the lines of the reasons were written that the event has no step in the state reached.
    ensures explained { result.status ≡ Status.Done →
        OfScript (F.content files.old) asked.now.file.now asked.now.script.now (λ t bytes. Runs (names_of t) (system_of t) bytes
        × ((event : ℕ) × (event_of (names_of t) asked.now.event.now ≡ Some event)
        × (O.written out.new ≡ grown (O.written out.old) (explained (names_of t) (system_of t) (told_of t) bytes event)))) }
    // After Stopped the script stops at that line for that cause, and nothing was written.
    ensures stopped { (k : ℕ) (why : StopWhy) → result.status ≡ Status.Stopped k why →
        OfScript (F.content files.old) asked.now.file.now asked.now.script.now (λ t bytes. StopsAt (names_of t) (system_of t) bytes k (cause why))
        × (O.written out.new ≡ grown (O.written out.old) []) }
    // After NoEvent no event has the path.
    ensures no_event { result.status ≡ Status.NoEvent →
        OfSource (F.content files.old) asked.now.file.now (λ t. LacksEvent t asked.now.event.now) }
    // A source is refused for a cause that it has.
    ensures refused { (why : Refusal) → result.status ≡ Status.Refused why →
        SourceRefused (F.content files.old) asked.now.file.now why }
    ensures too_many { (count : ℕ) → result.status ≡ Status.OutsideProfile (ProfileWhy.TooManyChoices count) →
        SourceHasTooMany (F.content files.old) asked.now.file.now count }
    ensures kept { (n : List ℕ) → F.content files.new n ≡ F.content files.old n }
    ensures faults_stay_or_rise { (n : List ℕ) → F.faults files.old n ≤ F.faults files.new n }
    ensures most_stays_or_rises { (n : List ℕ) → F.most files.old n ≤ F.most files.new n }
    ensures out_faults_stay_or_rise { O.faults out.old ≤ O.faults out.new }
{
    explain(alloc, asked, files, out)
}
