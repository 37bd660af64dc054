//! The runs of a net, up to the status that each leads to.

ghost use Rattle.std.specs.Prelude.{◌≡◌, ◌≤◌, ℕ, List, length};
ghost use Rattle.cif_eval.specs.Choices.{system_of};
ghost use Rattle.cif_run.specs.Groups.{group_of};
ghost use Rattle.cif_run.specs.Works.{Comes, Reading, WroteIn, reading, text_work, writing};
ghost use Rattle.cif_sim_run.specs.Left.{names_in};
ghost use Rattle.cif_sim_model.specs.Simulation.{first_text};
ghost use Rattle.cif_simulate.specs.Scripts.{CameOver};
ghost use Rattle.cif_simulate.specs.Running.{script_work};

use crate::scripts::{read_script, status_of};
use cif_io::{Files, Sink, SinkErr};
use cif_net::Guarded;
use cif_run::{Ended, Status};
use cif_sim_run::{run_first, run_script};
use std::alloc::Global;

/// Runs a script on a net and writes the lines of the run.
fn write_script<O: Sink>(alloc: Global, net: &Guarded, script: &[u8], out: &mut O) -> Ended
    requires { length script.now ≤ 4194304 }
    ensures came { (c : Reading) → Comes (script_work (names_in net.now) (system_of net.now) script.now) c
        (writing (O.written out.old) (O.written out.new) (O.faults out.old) (O.faults out.new)) result }
    ensures out_faults_stay_or_rise { O.faults out.old ≤ O.faults out.new }
{
    match run_script(alloc, net, script, out) {
        Ok(()) => Ended::plain(alloc, Status::Done),
        Err(halt) => Ended::plain(alloc, status_of(halt)),
    }
}

/// Reads a script and runs it on a net.
pub(crate) fn run_by_script<F: Files, O: Sink>(
    alloc: Global,
    net: &Guarded,
    script: &str,
    files: &mut F,
    out: &mut O,
) -> Ended
    ensures came { CameOver (script_work (names_in net.now) (system_of net.now)) script.now
        (reading (F.content files.old) (F.faults files.old) (F.faults files.new) (F.most files.new))
        (writing (O.written out.old) (O.written out.new) (O.faults out.old) (O.faults out.new)) result }
    ensures kept { (n : List ℕ) → F.content files.new n ≡ F.content files.old n }
    ensures faults_stay_or_rise { (n : List ℕ) → F.faults files.old n ≤ F.faults files.new n }
    ensures most_stays_or_rises { (n : List ℕ) → F.most files.old n ≤ F.most files.new n }
    ensures out_faults_stay_or_rise { O.faults out.old ≤ O.faults out.new }
{
    match read_script(alloc, script, files) {
        Ok(bytes) => write_script(alloc, net, bytes.as_slice(), out),
        Err(ended) => ended,
    }
}

/// Makes at most `steps` steps on a net and writes the lines of the run.
pub(crate) fn run_by_first<O: Sink>(alloc: Global, net: &Guarded, steps: u32, out: &mut O) -> Ended
    requires { steps ≤ 1000000 }
    ensures wrote { WroteIn (text_work (first_text (names_in net.now) (system_of net.now) steps))
        (first_text (names_in net.now) (system_of net.now) steps)
        (writing (O.written out.old) (O.written out.new) (O.faults out.old) (O.faults out.new)) (group_of result.status) }
    ensures out_faults_stay_or_rise { O.faults out.old ≤ O.faults out.new }
{
    let status = match run_first(alloc, net, steps, out) {
        Ok(()) => Status::Done,
        Err(SinkErr::Failed) => Status::WriteFault,
        Err(SinkErr::Memory) => Status::Memory,
    };
    Ended::plain(alloc, status)
}
