//! Scripts that are followed silently.

ghost use Rattle.std.specs.Prelude.{◌≡◌, ◌≤◌, length, IfErr, IfOk, OnOk};
ghost use Rattle.cif_eval.specs.Choices.{system_of};
ghost use Rattle.cif_sim_model.specs.Script as lines_of;
ghost use Rattle.cif_sim_model.specs.Simulation.{FirstStop, Runs, StopsAt, state_reached};
ghost use Rattle.cif_sim_run.specs.Halts.{HaltsSilently};
ghost use Rattle.cif_sim_run.specs.Left.{NoStop, names_in, state_left};

use crate::acting::follow_line;
use crate::halt::Halt;
use cif_net::Guarded;
use cif_script::{Paths, script_lines};
use cif_sim::Sim;
use std::alloc::Global;

/// Runs a script on a net in its initial state, and writes nothing.
///
/// Errors: `Stopped` at the first line that can't be followed, and `Memory`.
pub fn follow_script<'a>(
    alloc: Global,
    guarded: &'a Guarded,
    script: &[u8],
) -> Result<Sim<'a>, Halt>
    requires { length script.now ≤ 4194304 }
    ensures net { IfOk result (λ sim. sim.guarded ≡ guarded.now) }
    ensures ran { IfOk result (λ sim. Runs (names_in guarded.now) (system_of guarded.now) script.now
        × (sim.state ≡ state_reached (names_in guarded.now) (system_of guarded.now) script.now)) }
    ensures halted { IfErr result (HaltsSilently (StopsAt (names_in guarded.now) (system_of guarded.now) script.now)) }
{
    let paths = Paths::new(alloc, &guarded.plain.net)?;
    let mut sim = Sim::new(alloc, guarded)?;
    follow_lines(&mut sim, &paths, script)?;
    Ok(sim)
}

/// Follows the lines of a script.
fn follow_lines(sim: &mut Sim<'_>, paths: &Paths<'_>, script: &[u8]) -> Result<(), Halt>
    requires short { length script.now ≤ 4194304 }
    requires names { paths.now ≡ names_in sim.old.guarded }
    ensures net { sim.new.guarded ≡ sim.old.guarded }
    ensures ran { OnOk result (NoStop paths.now (system_of sim.old.guarded) sim.old.state (lines_of.script_lines script.now)
        × (sim.new.state ≡ state_left paths.now (system_of sim.old.guarded) sim.old.state (lines_of.script_lines script.now))) }
    ensures halted { IfErr result (HaltsSilently (FirstStop paths.now (system_of sim.old.guarded) sim.old.state (lines_of.script_lines script.now))) }
{
    let mut number = 0;
    for line in script_lines(script) {
        number += 1;
        match follow_line(sim, paths, line) {
            Ok(_) => {}
            Err(why) => return Err(Halt::Stopped { line: number, why }),
        }
    }
    Ok(())
}
