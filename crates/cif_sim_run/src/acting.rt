//! The actions of lines, made on a simulation.

ghost use Rattle.std.specs.Prelude.{◌≡◌, ◌<◌, length, option_map, Some, IfOk, IfSome, OnOk, IfErr};
ghost use Rattle.cif_net.specs.View.{net_tree};
ghost use Rattle.cif_eval.specs.Choices.{system_of};
ghost use Rattle.cif_script.specs.Views.{action_of};
ghost use Rattle.cif_system.specs.Scan as scan;
ghost use Rattle.cif_sim_model.specs.Runs.{first_event, next_by};
ghost use Rattle.cif_sim_model.specs.Script.{fires, read_line, sets};
ghost use Rattle.cif_sim_model.specs.Simulation.{Meets};
ghost use Rattle.cif_sim_names.specs.Nets.{names_of_net};
ghost use Rattle.cif_sim_run.specs.Halts.{cause};
ghost use Rattle.cif_sim_run.specs.Left.{IsNamed, Prevents};
ghost use Rattle.cif_sim_run.specs.Made.{ChangedBy, IsWithin, action_made};

use crate::halt::StopWhy;
use crate::made::{Fired, Made};
use cif_script::{Action, Paths};
use cif_sim::{NotEnabled, SetErr, Sim};

/// Follows a line of a script.
pub(crate) fn follow_line(
    sim: &mut Sim<'_>,
    paths: &Paths<'_>,
    line: &[u8],
) -> Result<Made, StopWhy>
    requires { paths.now ≡ names_of_net (net_tree sim.old.guarded.plain.net) }
    ensures net { sim.new.guarded ≡ sim.old.guarded }
    ensures followed { IfOk result (λ a. (read_line paths.now line.now ≡ Some (action_made a))
        × (next_by (system_of sim.old.guarded) sim.old.state (action_made a) ≡ Some sim.new.state)) }
    ensures within { IfOk result (λ a. IsWithin sim.old.guarded a sim.old.state sim.new.state) }
    ensures met { IfErr result (λ why. Meets paths.now (system_of sim.old.guarded) sim.old.state line.now (cause why)) }
{
    let Some(action) = paths.read(line) else {
        return Err(StopWhy::BadLine);
    };
    match act(sim, action) {
        Ok(made) => Ok(made),
        Err(why) => Err(why),
    }
}

/// Makes an action.
fn act(sim: &mut Sim<'_>, action: Action) -> Result<Made, StopWhy>
    requires { IsNamed (names_of_net (net_tree sim.old.guarded.plain.net)) (action_of action) }
    ensures net { sim.new.guarded ≡ sim.old.guarded }
    ensures is { IfOk result (λ a. action_made a ≡ action_of action) }
    ensures made { OnOk result (next_by (system_of sim.old.guarded) sim.old.state (action_of action) ≡ Some sim.new.state) }
    ensures within { IfOk result (λ a. IsWithin sim.old.guarded a sim.old.state sim.new.state) }
    ensures prevented { IfErr result (λ why. Prevents (system_of sim.old.guarded) sim.old.state (action_of action) (cause why)) }
{
    match action {
        Action::Idle => Ok(Made::Idle),
        Action::Set { input, value } => match set(sim, input, value) {
            Ok(()) => Ok(Made::Set { input, value }),
            Err(why) => Err(why),
        },
        Action::Fire { event } => match fire(sim, event) {
            Ok(choice) => Ok(Made::Fire(Fired { event, choice })),
            Err(why) => Err(why),
        },
    }
}

fn set(sim: &mut Sim<'_>, input: u32, value: i64) -> Result<(), StopWhy>
    requires { input < length (system_of sim.old.guarded).inputs }
    ensures net { sim.new.guarded ≡ sim.old.guarded }
    ensures made { OnOk result (next_by (system_of sim.old.guarded) sim.old.state (sets input value) ≡ Some sim.new.state) }
    ensures prevented { IfErr result (λ why. Prevents (system_of sim.old.guarded) sim.old.state (sets input value) (cause why)) }
{
    match sim.set(input, value) {
        Ok(()) => Ok(()),
        Err(SetErr::OutOfRange { value }) => Err(StopWhy::OutOfRange { value }),
    }
}

/// Makes the first step of an event, and returns the choice that makes it.
fn fire(sim: &mut Sim<'_>, event: u32) -> Result<u32, StopWhy>
    requires { event < length (system_of sim.old.guarded).events }
    ensures net { sim.new.guarded ≡ sim.old.guarded }
    ensures made { OnOk result (next_by (system_of sim.old.guarded) sim.old.state (fires event) ≡ Some sim.new.state) }
    ensures within { IfOk result (λ k. ChangedBy sim.old.guarded k sim.old.state sim.new.state) }
    ensures prevented { IfErr result (λ why. Prevents (system_of sim.old.guarded) sim.old.state (fires event) (cause why)) }
{
    match sim.fire(event) {
        Ok(choice) => Ok(choice),
        Err(NotEnabled) => Err(StopWhy::NotEnabled),
    }
}

/// Makes the step of the lowest-numbered event that has one; `None` if none has.
pub(crate) fn step_by_first(sim: &mut Sim<'_>) -> Option<Fired>
    ensures net { sim.new.guarded ≡ sim.old.guarded }
    ensures first { option_map (λ f. f.event) result ≡ first_event (system_of sim.old.guarded) sim.old.state }
    ensures made { IfSome result (λ f. sim.new.state ≡ scan.fire (system_of sim.old.guarded) sim.old.state f.event) }
    ensures within { IfSome result (λ f. ChangedBy sim.old.guarded f.choice sim.old.state sim.new.state) }
{
    let event = sim.first()?;
    match sim.fire(event) {
        Ok(choice) => Some(Fired { event, choice }),
        Err(NotEnabled) => unreachable!(),
    }
}
