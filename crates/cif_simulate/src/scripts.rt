//! The script in a file, and the status that a run of it leads to, as `why` has them too.

ghost use Rattle.std.specs.Prelude.{◌≡◌, ◌≤◌, ℕ, List, length, IfOk, IfErr};
ghost use Rattle.cif_run.specs.Groups.{group_of};
ghost use Rattle.cif_run.specs.Works.{FileEnds, Holds, reading};
ghost use Rattle.cif_simulate.specs.Scripts as s;
ghost use Rattle.cif_simulate.specs.Scripts.{script_input, script_limit};

use cif_io::Files;
use cif_run::{Ended, Status, StopWhy, read_file};
use cif_sim_run::Halt;
use std::alloc::Global;

/// The most bytes of a script.
const SCRIPT_LIMIT: u32 = 4_194_304;

/// Reads the script in the second file.
pub fn read_script<F: Files>(alloc: Global, script: &str, files: &mut F) -> Result<Vec<u8>, Ended>
    ensures whole { IfOk result (λ bytes. Holds (F.content files.old script.now) bytes.items) }
    ensures within { IfOk result (λ bytes. length bytes.items ≤ script_limit) }
    ensures ends { IfErr result (λ e. FileEnds
        (reading (F.content files.old) (F.faults files.old) (F.faults files.new) (F.most files.new))
        (script_input script.now) e.limit (group_of e.status)) }
    ensures kept { (n : List ℕ) → F.content files.new n ≡ F.content files.old n }
    ensures faults_stay_or_rise { (n : List ℕ) → F.faults files.old n ≤ F.faults files.new n }
    ensures most_stays_or_rises { (n : List ℕ) → F.most files.old n ≤ F.most files.new n }
{
    read_file(alloc, 2, script, SCRIPT_LIMIT, files)
}

fn why_of(why: cif_sim_run::StopWhy) -> StopWhy
    ensures { result ≡ s.why_of why }
{
    match why {
        cif_sim_run::StopWhy::OutOfRange { value } => StopWhy::OutOfRange { value },
        cif_sim_run::StopWhy::NotEnabled => StopWhy::NotEnabled,
        cif_sim_run::StopWhy::BadLine => StopWhy::BadLine,
    }
}

/// The status of a run that halts.
pub fn status_of(halt: Halt) -> Status
    ensures { result ≡ s.status_of halt }
{
    match halt {
        Halt::Stopped { line, why } => Status::Stopped {
            line,
            why: why_of(why),
        },
        Halt::Failed => Status::WriteFault,
        Halt::Memory => Status::Memory,
    }
}
