//! What `generate` does, and what it promises.

ghost use Rattle.std.specs.Prelude.{◌≡◌, ◌≤◌, ℕ, List, IfOk};
ghost use Rattle.cif_run.specs.Works.{Comes, Stops, reading, writing};
ghost use Rattle.cif_run.specs.declared.status.ProfileWhy.{ProfileWhy};
ghost use Rattle.cif_refusal.specs.declared.refusal.Refusal.{Refusal};
ghost use Rattle.cif_net.specs.View.{net_tree};
ghost use Rattle.cif_accept.specs.Accepts.{SourceHasTooMany, SourceIs, SourceRefused};
ghost use Rattle.cif_source.specs.Source.{Source};
ghost use Rattle.cif_inst_model.specs.NetRules.{UnclassedDue};
ghost use Rattle.plc_model.specs.Face.{HasInterface};
ghost use Rattle.plc_model.specs.Scans.{NeverFaults, RunsFirstSteps, ScansLegally, ScansExactly, ShowsOutputs, StaysTyped};
ghost use Rattle.plc_back.specs.Texts.{IsLayoutOf, TheProgram};
ghost use Rattle.cif_generate.specs.Meaning.{AreClassed, StartsInitial, meant_by, shown_of};
ghost use Rattle.cif_generate.specs.Generates.{Writes, generate_of, generate_work};
ghost use Rattle.cif_generate.specs.Told.{IsTold, path_in};

use crate::request::Generate;
use cif_accept::accept_file;
use cif_base::{Memory, Text};
use cif_io::{Files, Sink};
use cif_net::Net;
use cif_run::{Command, Ended, ProfileWhy, Status, run};
use plc_back::{ProfileErr, generate_text};
use std::alloc::Global;

/// The path of an event.
fn path_of(alloc: Global, net: &Net, event: u32) -> Result<Text, Memory>
    ensures { IfOk result (λ path. path ≡ path_in (net_tree net.now) event) }
{
    match net.events.get(event as usize) {
        Some(found) => found.path.copy(alloc),
        None => Ok(Text::new(alloc)),
    }
}

/// The end of the command over a net whose first event without a class is this.
fn unclassed(alloc: Global, net: &Net, event: u32) -> Ended
    ensures { IsTold (net_tree net.now) event result }
{
    match path_of(alloc, net, event) {
        Ok(variable) => Ended {
            status: Status::OutsideProfile {
                why: ProfileWhy::Unclassed { event },
            },
            variable,
            limit: 0,
        },
        Err(_) => Ended::plain(alloc, Status::Memory),
    }
}

impl<'a> Command for Generate<'a> {
    ghost use Rattle.cif_generate.specs.Generates.{generate_of, generate_work};

    ghost work = { λ g content. generate_work (generate_of g) content };

    fn text<F: Files>(&self, alloc: Global, files: &mut F) -> Result<Vec<u8>, Ended> {
        let net = accept_file(alloc, self.file, files)?;
        match generate_text(alloc, &net, self.bounds) {
            Ok(text) => Ok(text),
            Err(ProfileErr::Unclassed { event }) => Err(unclassed(alloc, &net.plain.net, event)),
            Err(ProfileErr::Memory) => Err(Ended::plain(alloc, Status::Memory)),
        }
    }
}

/// Reads the source (CIF 3 language reference) of the file, and writes a Structured Text program (IEC 61131-3) that makes its scans,
/// with at most these rounds of uncontrollable and of controllable events in a scan.
/// After Done every promise speaks of the one program that the text reads as.
pub fn generate<F: Files, O: Sink>(
    alloc: Global,
    asked: &Generate<'_>,
    files: &mut F,
    out: &mut O,
) -> Ended
    ensures came { Comes (generate_work (generate_of asked.now) (F.content files.old))
        (reading (F.content files.old) (F.faults files.old) (F.faults files.new) (F.most files.new))
        (writing (O.written out.old) (O.written out.new) (O.faults out.old) (O.faults out.new)) result }
    // It has the inputs and outputs.
    ensures program { result.status ≡ Status.Done →
        Writes (F.content files.old) asked.now.file.now (O.written out.old) (O.written out.new)
        (λ t text. TheProgram text (HasInterface (shown_of t))) }
    // Its start memory stands for the initial state.
    ensures starts_initial { result.status ≡ Status.Done →
        Writes (F.content files.old) asked.now.file.now (O.written out.old) (O.written out.new)
        (λ t text. TheProgram text (StartsInitial (shown_of t) (meant_by t))) }
    // Each scan that ends is a run of first steps.
    ensures runs_first_steps { result.status ≡ Status.Done →
        Writes (F.content files.old) asked.now.file.now (O.written out.old) (O.written out.new)
        (λ t text. TheProgram text (RunsFirstSteps (shown_of t) (meant_by t))) }
    // Each scan ends.
    ensures never_faults { result.status ≡ Status.Done →
        Writes (F.content files.old) asked.now.file.now (O.written out.old) (O.written out.new)
        (λ t text. TheProgram text (NeverFaults (meant_by t))) }
    // Each scan is legal whole.
    ensures scans_legally { result.status ≡ Status.Done →
        Writes (F.content files.old) asked.now.file.now (O.written out.old) (O.written out.new)
        (λ t text. TheProgram text (ScansLegally asked.now.bounds.unc asked.now.bounds.con (shown_of t) (meant_by t))) }
    // Each scan is the exact scan.
    ensures scans_exactly { result.status ≡ Status.Done →
        Writes (F.content files.old) asked.now.file.now (O.written out.old) (O.written out.new)
        (λ t text. TheProgram text (ScansExactly asked.now.bounds.unc asked.now.bounds.con (shown_of t) (meant_by t))) }
    // The outputs are those of the state.
    ensures shows_outputs { result.status ≡ Status.Done →
        Writes (F.content files.old) asked.now.file.now (O.written out.old) (O.written out.new)
        (λ t text. TheProgram text (ShowsOutputs (shown_of t) (meant_by t))) }
    // No variable leaves its declared type.
    ensures stays_typed { result.status ≡ Status.Done →
        Writes (F.content files.old) asked.now.file.now (O.written out.old) (O.written out.new)
        (λ t text. TheProgram text (StaysTyped (meant_by t))) }
    // The text is the layout of the program, to the byte.
    ensures laid_out { result.status ≡ Status.Done →
        Writes (F.content files.old) asked.now.file.now (O.written out.old) (O.written out.new)
        (λ t text. TheProgram text (IsLayoutOf text)) }
    // Each event of the source has a class.
    ensures classed { result.status ≡ Status.Done →
        Writes (F.content files.old) asked.now.file.now (O.written out.old) (O.written out.new)
        (λ t text. AreClassed t) }
    // A source is refused for a cause that it has.
    ensures refused { (why : Refusal) → result.status ≡ Status.Refused why →
        SourceRefused (F.content files.old) asked.now.file.now why }
    ensures too_many { (count : ℕ) → result.status ≡ Status.OutsideProfile (ProfileWhy.TooManyChoices count) →
        SourceHasTooMany (F.content files.old) asked.now.file.now count }
    // The event is the first of the source without a class.
    ensures unclassed { (event : ℕ) → result.status ≡ Status.OutsideProfile (ProfileWhy.Unclassed event) →
        (t : Source) × SourceIs (F.content files.old) asked.now.file.now t × UnclassedDue t event }
    ensures kept { (n : List ℕ) → F.content files.new n ≡ F.content files.old n }
    ensures faults_stay_or_rise { (n : List ℕ) → F.faults files.old n ≤ F.faults files.new n }
    ensures most_stays_or_rises { (n : List ℕ) → F.most files.old n ≤ F.most files.new n }
    ensures out_faults_stay_or_rise { O.faults out.old ≤ O.faults out.new }
{
    run(alloc, asked, files, out)
}
