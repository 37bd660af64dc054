//! Runs by the first event that has a step.

ghost use Rattle.std.specs.Prelude.{◌≡◌, ◌≤◌, OnErr, OnOk};
ghost use Rattle.cif_eval.specs.Choices.{system_of};
ghost use Rattle.cif_io.specs.Faults.{Rose};
ghost use Rattle.cif_io.specs.Written.{grown};
ghost use Rattle.cif_net.specs.View.{state_tree};
ghost use Rattle.cif_sim_model.specs.Simulation.{first_text};
ghost use Rattle.cif_sim_run.specs.Halts.{GrewByPart};
ghost use Rattle.cif_sim_run.specs.Left.{IsSized, Shows, first_left, names_in};

use crate::acting::step_by_first;
use crate::lines::LineWriter;
use crate::made::Made;
use cif_io::{Sink, SinkErr, put_all};
use cif_net::Guarded;
use cif_sim::Sim;
use std::alloc::Global;

/// Makes at most `steps` steps on a net in its initial state, each of the lowest-numbered event that has one, and writes the lines of
/// the run: the start line, one for each step, and `deadlock` if fewer are made. Each is written before the next step is made.
///
/// Errors: `Failed` and `Memory`, where a part of the lines was written.
pub fn run_first<O: Sink>(
    alloc: Global,
    guarded: &Guarded,
    steps: u32,
    out: &mut O,
) -> Result<(), SinkErr>
    requires { steps ≤ 1000000 }
    ensures ran { OnOk result (O.written out.new ≡ grown (O.written out.old) (first_text (names_in guarded.now) (system_of guarded.now) steps)) }
    ensures part { OnErr result (GrewByPart (first_text (names_in guarded.now) (system_of guarded.now) steps) (O.written out.old) (O.written out.new)) }
    ensures failed { result ≡ Err SinkErr.Failed → Rose (O.faults out.old) (O.faults out.new) }
    ensures faults_stay_or_rise { O.faults out.old ≤ O.faults out.new }
{
    let Ok(mut sim) = Sim::new(alloc, guarded) else {
        return Err(SinkErr::Memory);
    };
    let Ok(mut lines) = LineWriter::new(alloc, guarded) else {
        return Err(SinkErr::Memory);
    };
    lines.write_start(out)?;
    make_steps(&mut sim, steps, &mut lines, out)
}

/// Makes at most `steps` steps and writes the line of each.
fn make_steps<O: Sink>(
    sim: &mut Sim<'_>,
    steps: u32,
    lines: &mut LineWriter<'_>,
    out: &mut O,
) -> Result<(), SinkErr>
    requires few { steps ≤ 1000000 }
    requires net { lines.old.touches ≡ sim.old.guarded }
    requires start { lines.old.steps ≡ 0 }
    requires shown { Shows (state_tree lines.old.before) sim.old.state }
    requires sized { IsSized (system_of sim.old.guarded) sim.old.state }
    ensures ran { OnOk result (O.written out.new ≡ grown (O.written out.old)
        (first_left (names_in sim.old.guarded) (system_of sim.old.guarded) sim.old.state 0 steps)) }
    ensures part { OnErr result (GrewByPart (first_left (names_in sim.old.guarded) (system_of sim.old.guarded) sim.old.state 0 steps)
        (O.written out.old) (O.written out.new)) }
    ensures failed { result ≡ Err SinkErr.Failed → Rose (O.faults out.old) (O.faults out.new) }
    ensures faults_stay_or_rise { O.faults out.old ≤ O.faults out.new }
{
    while lines.steps() < steps {
        match step_by_first(sim) {
            Some(fired) => lines.write_action(Made::Fire(fired), sim.state(), out)?,
            None => return put_all(out, b"deadlock\n"),
        }
    }
    Ok(())
}
