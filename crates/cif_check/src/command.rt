//! What `check` does, and what it promises.

ghost use Rattle.std.specs.Prelude.{◌≡◌, ◌≤◌, ◌⊎◌, ℕ, List};
ghost use Rattle.cif_io.specs.Written.{grown};
ghost use Rattle.cif_run.specs.Works.{Comes, reading, writing};
ghost use Rattle.cif_source.specs.Source.{Source};
ghost use Rattle.cif_accept.specs.Accepts.{SourceHasTooMany, SourceIs, SourceRefused};
ghost use Rattle.cif_run.specs.declared.status.ProfileWhy.{ProfileWhy};
ghost use Rattle.cif_refusal.specs.declared.refusal.Refusal.{Refusal};
ghost use Rattle.cif_check.specs.Checks.{accepted, check_of, check_work};

use crate::words::Check;
use cif_accept::accept_file;
use cif_io::{Files, Sink};
use cif_run::{Command, Ended, Status, run};
use std::alloc::Global;

impl<'a> Command for Check<'a> {
    ghost use Rattle.cif_check.specs.Checks.{check_of, check_work};

    ghost work = { λ k content. check_work (check_of k) content };

    fn text<F: Files>(&self, alloc: Global, files: &mut F) -> Result<Vec<u8>, Ended> {
        let _net = accept_file(alloc, self.file, files)?;
        match Vec::from_slice(alloc, b"ok\n") {
            Ok(text) => Ok(text),
            Err(_) => Err(Ended::plain(alloc, Status::Memory)),
        }
    }
}

/// Reads the source (CIF 3 language reference) of the file, and writes `ok` where it breaks no rule.
pub fn check<F: Files, O: Sink>(
    alloc: Global,
    asked: &Check<'_>,
    files: &mut F,
    out: &mut O,
) -> Ended
    ensures came { Comes (check_work (check_of asked.now) (F.content files.old))
        (reading (F.content files.old) (F.faults files.old) (F.faults files.new) (F.most files.new))
        (writing (O.written out.old) (O.written out.new) (O.faults out.old) (O.faults out.new)) result }
    // After Done the file holds a source that is accepted, and `ok` was written.
    ensures checked { result.status ≡ Status.Done → ((t : Source) × SourceIs (F.content files.old) asked.now.file.now t)
        × (O.written out.new ≡ grown (O.written out.old) accepted) }
    // A source is refused for a cause that it has.
    ensures refused { (why : Refusal) → result.status ≡ Status.Refused why →
        SourceRefused (F.content files.old) asked.now.file.now why }
    ensures too_many { (count : ℕ) → result.status ≡ Status.OutsideProfile (ProfileWhy.TooManyChoices count) →
        SourceHasTooMany (F.content files.old) asked.now.file.now count }
    ensures kept { (n : List ℕ) → F.content files.new n ≡ F.content files.old n }
    ensures faults_stay_or_rise { (n : List ℕ) → F.faults files.old n ≤ F.faults files.new n }
    ensures most_stays_or_rises { (n : List ℕ) → F.most files.old n ≤ F.most files.new n }
    ensures out_faults_stay_or_rise { O.faults out.old ≤ O.faults out.new }
{
    run(alloc, asked, files, out)
}
