//! Runs by a script.

ghost use Rattle.std.specs.Prelude.{◌≡◌, ◌≤◌, length, IfOk, IfErr, OnOk};
ghost use Rattle.cif_eval.specs.Choices.{system_of};
ghost use Rattle.cif_io.specs.Written.{grown};
ghost use Rattle.cif_net.specs.View.{state_tree};
ghost use Rattle.cif_sim_model.specs.Script as lines_of;
ghost use Rattle.cif_sim_model.specs.Simulation.{FirstStop, Runs, StopsAt, script_text};
ghost use Rattle.cif_sim_run.specs.Halts.{HaltsIn, writing};
ghost use Rattle.cif_sim_run.specs.Left.{IsSized, NoStop, Shows, names_in, text_left};

use crate::acting::follow_line;
use crate::halt::Halt;
use crate::lines::LineWriter;
use cif_io::Sink;
use cif_net::Guarded;
use cif_script::{Paths, script_lines};
use cif_sim::Sim;
use std::alloc::Global;

/// Runs a script on a net in its initial state and writes the lines of the run: the start line, and one for each input that is set and
/// each step that is made. Each is written before the next line of the script is read.
///
/// Errors: `Stopped` at the first line that can't be followed, where the lines before it were written; `Failed` where a write failed, and
/// `Memory`, where a part of the lines was written.
pub fn run_script<O: Sink>(
    alloc: Global,
    guarded: &Guarded,
    script: &[u8],
    out: &mut O,
) -> Result<(), Halt>
    requires { length script.now ≤ 4194304 }
    ensures ran { OnOk result (Runs (names_in guarded.now) (system_of guarded.now) script.now
        × (O.written out.new ≡ grown (O.written out.old) (script_text (names_in guarded.now) (system_of guarded.now) script.now))) }
    ensures halted { IfErr result (HaltsIn (StopsAt (names_in guarded.now) (system_of guarded.now) script.now)
        (script_text (names_in guarded.now) (system_of guarded.now) script.now)
        (writing (O.written out.old) (O.written out.new) (O.faults out.old) (O.faults out.new))) }
    ensures faults_stay_or_rise { O.faults out.old ≤ O.faults out.new }
{
    let paths = Paths::new(alloc, &guarded.plain.net)?;
    let mut sim = Sim::new(alloc, guarded)?;
    let mut lines = LineWriter::new(alloc, guarded)?;
    lines.write_start(out)?;
    write_lines(&mut sim, &paths, script, &mut lines, out)
}

/// Follows the lines of a script and writes the line of each.
fn write_lines<O: Sink>(
    sim: &mut Sim<'_>,
    paths: &Paths<'_>,
    script: &[u8],
    lines: &mut LineWriter<'_>,
    out: &mut O,
) -> Result<(), Halt>
    requires short { length script.now ≤ 4194304 }
    requires names { paths.now ≡ names_in sim.old.guarded }
    requires net { lines.old.touches ≡ sim.old.guarded }
    requires start { lines.old.steps ≡ 0 }
    requires shown { Shows (state_tree lines.old.before) sim.old.state }
    requires sized { IsSized (system_of sim.old.guarded) sim.old.state }
    ensures ran { OnOk result (NoStop paths.now (system_of sim.old.guarded) sim.old.state (lines_of.script_lines script.now)
        × (O.written out.new ≡ grown (O.written out.old)
        (text_left paths.now (system_of sim.old.guarded) sim.old.state 0 (lines_of.script_lines script.now)))) }
    ensures halted { IfErr result (HaltsIn (FirstStop paths.now (system_of sim.old.guarded) sim.old.state (lines_of.script_lines script.now))
        (text_left paths.now (system_of sim.old.guarded) sim.old.state 0 (lines_of.script_lines script.now))
        (writing (O.written out.old) (O.written out.new) (O.faults out.old) (O.faults out.new))) }
    ensures faults_stay_or_rise { O.faults out.old ≤ O.faults out.new }
{
    let mut number = 0;
    for line in script_lines(script) {
        number += 1;
        let made = match follow_line(sim, paths, line) {
            Ok(made) => made,
            Err(why) => return Err(Halt::Stopped { line: number, why }),
        };
        lines.write_action(made, sim.state(), out)?;
    }
    Ok(())
}
