//! The laws of the definitions, each the contract of a function without a body.

ghost use Rattle.std.specs.Prelude.{◌≡◌, ℕ, List};
ghost use Rattle.cif_system.specs.System.{State, System, initial};
ghost use Rattle.cif_sim_model.specs.Names.{Names};
ghost use Rattle.cif_sim_model.specs.Simulation.{StopCause, StopsAt, script_moments};
ghost use Rattle.cif_sim_model.specs.Steps.{EndsOrStops, IsRun, RunsFirst};

/// Each step that a script makes is a step of the system, by the first choice of its event, from the state reached.
pub fn scripts_make_steps()
    ensures { (names : Names) (m : System) (script : List ℕ) → IsRun m (initial m) (script_moments names m script) }
{}

/// Steps by the first event are steps of the system, each of the lowest-numbered event that has one, and they are fewer than
/// asked for only where none has.
pub fn first_events_make_steps()
    ensures { (m : System) (s : State) (n : ℕ) → RunsFirst m s n }
{}

/// A script runs to its end, or stops at the line after those that it runs.
pub fn scripts_end_or_stop()
    ensures { (names : Names) (m : System) (script : List ℕ) → EndsOrStops names m script }
{}

/// A script stops at one line at most, for one cause.
pub fn scripts_stop_once()
    ensures { (names : Names) (m : System) (script : List ℕ) (j k : ℕ) (why other : StopCause) →
        StopsAt names m script j why → StopsAt names m script k other → (j ≡ k) × (why ≡ other) }
{}
