ghost use Rattle.std.specs.Prelude.{◌≡◌, ◌≢◌, ◌<◌, ◌^◌, ◌⊎◌, ℕ, List, false};
ghost use Rattle.grammar.specs.Pieces.{Text};
ghost use Rattle.cif_system.specs.System.{System, State};
ghost use Rattle.st_ast.specs.Names.{same_name};
ghost use Rattle.st_ast.specs.Tree.{Program, Stms};
ghost use Rattle.st_ast.specs.Values.{Memory};
ghost use Rattle.plc_model.specs.declared.letter.Letter.{Letter};
ghost use Rattle.plc_model.specs.Names.{tidied, name_for, IsIdentifier};
ghost use Rattle.plc_model.specs.Face.{Face, StateOf};
ghost use Rattle.plc_model.specs.Scans.{RunsFirstSteps, ScansLegally, ScansExactly, ShowsOutputs, StaysTyped};
ghost use Rattle.plc_model.specs.Frame.{Part, IsFramed};

/// Names of another letter or another number differ, whatever the paths, and ignoring case.
pub fn names_differ()
    ensures { (a b : Letter) (j k : ℕ) (p q : Text) → j < 2 ^ 64 → k < 2 ^ 64 →
        (a ≢ b) ⊎ (j ≢ k) → same_name (name_for a j p) (name_for b k q) ≡ false }
{}

/// A name is an identifier, and no reserved word.
pub fn name_is_identifier()
    ensures { (l : Letter) (k : ℕ) (path : Text) → IsIdentifier (name_for l k path) }
{}

/// A tidied path stays as it is.
pub fn tidied_path_stays()
    ensures { (path : Text) → tidied (tidied path) ≡ tidied path }
{}

/// A memory stands for one state at most.
pub fn one_state()
    ensures { (face : Face) (sys : System) (p : Program) (m : Memory) (s t : State) →
        StateOf face sys p m s → StateOf face sys p m t → s ≡ t }
{}

/// Exact scans are legal ones.
pub fn exact_scans_are_legal()
    ensures { (face : Face) (sys : System) (p : Program) (U C : ℕ) →
        ScansExactly U C face sys p → ScansLegally U C face sys p }
{}

/// Exact scans are runs of first steps.
pub fn exact_scans_run_first_steps()
    ensures { (face : Face) (sys : System) (p : Program) (U C : ℕ) →
        ScansExactly U C face sys p → RunsFirstSteps face sys p }
{}

/// The frame round statements that try the events one by one makes exact scans, shows the outputs and keeps all types.
pub fn framed_events_scan_exactly()
    ensures { (face : Face) (sys : System) (U C : ℕ) (parts : List Part) (outputs : Stms) (p : Program) →
        IsFramed face sys U C parts outputs p →
        ScansExactly U C face sys p × ShowsOutputs face sys p × StaysTyped sys p }
{}
