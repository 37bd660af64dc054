//! From the file that should hold a source to its net.

ghost use Rattle.std.specs.Prelude.{◌≡◌, ◌≤◌, ℕ, List, length, IfOk, IfErr};
ghost use Rattle.cif_front.specs.Loads.{Loads};
ghost use Rattle.cif_run.specs.Works.{Stops, reading};
ghost use Rattle.cif_accept.specs.Accepts.{IsLoaded, SourceEnds, silent_work};
ghost use Rattle.cif_accept.specs.Refusals as refusals;

use cif_front::{LoadErr, Unloaded, load_named};
use cif_io::Files;
use cif_net::Guarded;
use cif_run::{Ended, ProfileWhy, Status, read_file};
use std::alloc::Global;

/// The most bytes of a source.
pub const SOURCE_LIMIT: u32 = 4_194_304;

/// How a command ends whose source is not loaded for this cause.
fn status_of(error: LoadErr) -> Status
    ensures { result ≡ refusals.status_of error }
{
    match error {
        LoadErr::Refused { why } => Status::Refused { why },
        LoadErr::TooManyChoices { count } => Status::OutsideProfile {
            why: ProfileWhy::TooManyChoices { count },
        },
        LoadErr::Memory => Status::Memory,
    }
}

/// The net of a source.
#[tactic(auto, using(crate::proofs::SourceLaws::due_ends))]
fn net_of(alloc: Global, source: &[u8]) -> Result<Guarded, Ended>
    requires { length source.now ≤ 4194304 }
    ensures loaded { IfOk result (λ g. Loads source.now g) }
    ensures ends { IfErr result (λ e. SourceEnds source.now e.status e.variable) }
{
    match load_named(alloc, source) {
        Ok(net) => Ok(net),
        Err(Unloaded { why, path }) => Err(Ended {
            status: status_of(why),
            variable: path,
            limit: 0,
        }),
    }
}

/// The net of the source in the file, with the choices of all events.
pub fn accept_file<F: Files>(alloc: Global, file: &str, files: &mut F) -> Result<Guarded, Ended>
    ensures loaded { IfOk result (IsLoaded (F.content files.old) file.now) }
    ensures stops { IfErr result (Stops (silent_work (F.content files.old) file.now)
        (reading (F.content files.old) (F.faults files.old) (F.faults files.new) (F.most files.new))) }
    ensures kept { (n : List ℕ) → F.content files.new n ≡ F.content files.old n }
    ensures faults_stay_or_rise { (n : List ℕ) → F.faults files.old n ≤ F.faults files.new n }
    ensures most_stays_or_rises { (n : List ℕ) → F.most files.old n ≤ F.most files.new n }
{
    let source = match read_file(alloc, 1, file, SOURCE_LIMIT, files) {
        Ok(source) => source,
        Err(ended) => return Err(ended),
    };
    match net_of(alloc, source.as_slice()) {
        Ok(net) => Ok(net),
        Err(ended) => Err(ended),
    }
}
