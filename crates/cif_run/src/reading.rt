//! Reading the file that a word of the command line names.

ghost use Rattle.std.specs.Prelude.{◌≡◌, ◌≤◌, ℕ, List, length, IfOk, IfErr};
ghost use Rattle.cif_run.specs.Groups.{group_of};
ghost use Rattle.cif_run.specs.Refusals.{read_status_of};
ghost use Rattle.cif_run.specs.Works.{FileEnds, Holds, reading};

use crate::ended::Ended;
use crate::status::Status;
use cif_base::Text;
use cif_io::{FileErr, Files};
use std::alloc::Global;

/// How a call ends that did not read the file of this word.
fn read_status(word: u32, error: FileErr) -> Status
    ensures { result ≡ read_status_of word error }
{
    match error {
        FileErr::Failed => Status::ReadFault { word },
        FileErr::TooBig { .. } => Status::TooBig { word },
        FileErr::Memory => Status::Memory,
    }
}

/// Reads the file of this word, which may have so many bytes.
#[tactic(auto, using(crate::proofs::FileLaws::file_ends))]
pub fn read_file<F: Files>(
    alloc: Global,
    word: u32,
    name: &str,
    limit: u32,
    files: &mut F,
) -> Result<Vec<u8>, Ended>
    ensures whole { IfOk result (λ bytes. Holds (F.content files.old name.now) bytes.items) }
    ensures within { IfOk result (λ bytes. length bytes.items ≤ limit) }
    ensures ends { IfErr result (λ e. FileEnds
        (reading (F.content files.old) (F.faults files.old) (F.faults files.new) (F.most files.new))
        (record { word = word; name = name.now; limit = limit }) e.limit (group_of e.status)) }
    ensures kept { (n : List ℕ) → F.content files.new n ≡ F.content files.old n }
    ensures faults_stay_or_rise { (n : List ℕ) → F.faults files.old n ≤ F.faults files.new n }
    ensures most_stays_or_rises { (n : List ℕ) → F.most files.old n ≤ F.most files.new n }
{
    let mut bytes = Vec::new(alloc);
    match files.read(name, u64::from(limit), &mut bytes) {
        Ok(()) => Ok(bytes),
        Err(error) => Err(Ended {
            status: read_status(word, error),
            variable: Text::new(alloc),
            limit,
        }),
    }
}
