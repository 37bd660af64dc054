//! The laws of the definitions, each the contract of a function without a body.

ghost use Rattle.std.specs.Prelude.{◌≡◌, length, ℕ, ℤ, List, IsTrue, Some, None};
ghost use Rattle.cif_system.specs.Words.{Member, AreDistinct};
ghost use Rattle.cif_system.specs.System.{System, State, Class, IsState, EndsInside, AllFit};
ghost use Rattle.cif_system.specs.Step.{Choice, agrees, Step, Run};
ghost use Rattle.cif_system.specs.Choices.{choices, choice_count, first_step};
ghost use Rattle.cif_system.specs.Scan.{ScanIsLegal, FirstRun, ScanRunsFirstSteps, exact_scan};

/// A choice that agrees with an event stands in the list of its choices.
pub fn every_choice_is_listed()
    ensures { (m : System) (s : State) (e : ℕ) (ch : Choice) → IsTrue (agrees m s e ch) →
        Member ch (choices m e) }
{}

/// No choice for an event is listed twice.
pub fn each_choice_is_listed_once()
    ensures { (m : System) (e : ℕ) → AreDistinct (choices m e) }
{}

/// There are as many choices for an event as are counted.
pub fn choices_are_counted()
    ensures { (m : System) (e : ℕ) → length (choices m e) ≡ choice_count m e }
{}

/// The first step of an event is a step.
pub fn first_step_is_a_step()
    ensures { (m : System) (s : State) (e : ℕ) (next : State) → first_step m s e ≡ Some next →
        Step m s e next }
{}

/// An event with no first step has no step.
pub fn no_first_step_no_step()
    ensures { (m : System) (s : State) (e : ℕ) → first_step m s e ≡ None → (next : State) →
        Step m s e next → ⊥ }
{}

/// Where edges end in places of their automata, a step leads from a state to a state.
pub fn step_keeps_states()
    ensures { (m : System) → EndsInside m → (s : State) (e : ℕ) (next : State) → IsState m s →
        Step m s e next → IsState m next }
{}

/// A run of first steps is a run.
pub fn run_of_first_steps_is_a_run()
    ensures { (m : System) (k : Class) (s : State) (es : List ℕ) (next : State) →
        FirstRun m k s es next → Run m k s es next }
{}

/// The exact scan is a legal one.
pub fn exact_scan_is_legal()
    ensures { (m : System) (s : State) (row : List ℤ) (U C : ℕ) →
        ScanIsLegal m s row (exact_scan m s row U C) U C }
{}

/// The exact scan is a run of uncontrollable and then of controllable events, each by its first step.
pub fn exact_scan_runs_first_steps()
    ensures { (m : System) (s : State) (row : List ℤ) (U C : ℕ) →
        ScanRunsFirstSteps m s row (exact_scan m s row U C) }
{}

/// Where edges end in places of their automata and the row fits the inputs, a legal scan leads from a state to a state.
pub fn scans_keep_states()
    ensures { (m : System) → EndsInside m → (s : State) (row : List ℤ) (next : State) (U C : ℕ) →
        IsState m s → AllFit m.inputs row → ScanIsLegal m s row next U C → IsState m next }
{}

/// Under the same conditions the exact scan leads from a state to a state.
pub fn exact_scan_keeps_states()
    ensures { (m : System) → EndsInside m → (s : State) (row : List ℤ) (U C : ℕ) → IsState m s →
        AllFit m.inputs row → IsState m (exact_scan m s row U C) }
{}
