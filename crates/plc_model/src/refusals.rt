//! The promises of scans hold of a right program of a small system, and each is refused for wrong ones.

ghost use Rattle.std.specs.Prelude.{◌≡◌, ◌+◌, ◌<◌, ℕ, pos, [], ◌∷◌};
ghost use Rattle.plc_model.specs.Face.{HasInterface};
ghost use Rattle.plc_model.specs.Scans.{IsProgramOf, NeverFaults, RunsFirstSteps, ScansLegally, ScansExactly, ShowsOutputs, StaysTyped, memories};
ghost use Rattle.plc_model.specs.Door.{closed, opened, locked, system, turned, unturned, face, program, memory, unlatched, idle, hasty, misled, forgetful, stale, astray, endless, untyped, hidden, ajar};

/// The right program keeps all promises: with the key turned the door is open after its first scan, and else locked.
pub fn right_program_keeps_all_promises()
    ensures program { IsProgramOf face system program }
    ensures scans { ScansExactly 3 3 face system program }
    ensures outputs { ShowsOutputs face system program }
    ensures types { StaysTyped system program }
    ensures turned { memories program (turned ∷ []) ≡ memory (pos 1) (pos 1) opened (pos opened) (pos 0) (pos 1) ∷ [] }
    ensures unturned { memories program (unturned ∷ []) ≡ memory (pos 0) (pos 0) locked (pos locked) (pos 0) (pos 2) ∷ [] }
{}

/// Without its latch it locks the door although the key is turned: whatever the bounds, its scans are not exact, not
/// legal, and no first steps.
pub fn missing_latch_is_refused()
    ensures scan { memories unlatched (turned ∷ []) ≡ memory (pos 1) (pos 0) locked (pos locked) (pos 0) (pos 2) ∷ [] }
    ensures exact { (U C : ℕ) → ScansExactly U C face system unlatched → ⊥ }
    ensures legal { (U C : ℕ) → ScansLegally U C face system unlatched → ⊥ }
    ensures first_steps { RunsFirstSteps face system unlatched → ⊥ }
{}

/// A program that fires nothing although an event is enabled makes no legal scans, unless both bounds are 0.
pub fn idle_loops_are_refused()
    ensures turned { memories idle (turned ∷ []) ≡ memory (pos 1) (pos 1) closed (pos closed) (pos 0) (pos 1) ∷ [] }
    ensures unturned { memories idle (unturned ∷ []) ≡ memory (pos 0) (pos 0) closed (pos closed) (pos 0) (pos 1) ∷ [] }
    ensures legal { (U C : ℕ) → 0 < U + C → ScansLegally U C face system idle → ⊥ }
{}

/// A program that fires the controllable event first makes no legal scans, unless the bound of the others is 0.
pub fn controllable_events_first_are_refused()
    ensures scan { memories hasty (turned ∷ []) ≡ memory (pos 1) (pos 1) locked (pos locked) (pos 0) (pos 1) ∷ [] }
    ensures legal { (U C : ℕ) → 0 < U → ScansLegally U C face system hasty → ⊥ }
{}

/// A program that goes where no edge leads makes no run of first steps.
pub fn wrong_steps_are_refused()
    ensures scan { memories misled (unturned ∷ []) ≡ memory (pos 0) (pos 0) opened (pos opened) (pos 0) (pos 2) ∷ [] }
    ensures first_steps { RunsFirstSteps face system misled → ⊥ }
{}

/// A program that loses its state after a right first scan makes no run of first steps in the second.
pub fn lost_states_are_refused()
    ensures scan { memories forgetful (turned ∷ []) ≡ memories program (turned ∷ []) }
    ensures scans { memories forgetful (turned ∷ unturned ∷ [])
        ≡ memory (pos 1) (pos 1) opened (pos opened) (pos 0) (pos 1) ∷ memory (pos 0) (pos 0) locked (pos locked) (pos 0) (pos 2) ∷ [] }
    ensures first_steps { RunsFirstSteps face system forgetful → ⊥ }
{}

/// A program that doesn't write its outputs doesn't show those of the state.
pub fn stale_outputs_are_refused()
    ensures scan { memories stale (turned ∷ []) ≡ memory (pos 1) (pos 1) opened (pos closed) (pos 0) (pos 1) ∷ [] }
    ensures outputs { ShowsOutputs face system stale → ⊥ }
{}

/// A program that leaves a subrange faults, and one that loops without end runs out of turns.
pub fn scans_without_end_are_refused()
    ensures faults { NeverFaults system astray → ⊥ }
    ensures turns { NeverFaults system endless → ⊥ }
{}

/// A program that stores another number than 0 and 1 in a BOOL leaves its types.
pub fn numbers_outside_types_are_refused()
    ensures scan { memories untyped (unturned ∷ []) ≡ memory (pos 0) (pos 2) opened (pos opened) (pos 0) (pos 1) ∷ [] }
    ensures types { StaysTyped system untyped → ⊥ }
{}

/// A program without outputs has another interface, and one with the door open at first doesn't start in the initial state.
pub fn wrong_declarations_are_refused()
    ensures outputs { HasInterface face hidden → ⊥ }
    ensures start { IsProgramOf face system ajar → ⊥ }
{}
