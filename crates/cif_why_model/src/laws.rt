//! The laws of the definitions, each the contract of a function without a body.

ghost use Rattle.std.specs.Prelude.{◌≡◌, ℕ, List, [], None, Some};
ghost use Rattle.cif_system.specs.System.{State, System};
ghost use Rattle.cif_system.specs.Choices.{first_step};
ghost use Rattle.cif_system.specs.Words.{Member};
ghost use Rattle.cif_why_model.specs.Told.{Told};
ghost use Rattle.cif_why_model.specs.Reasons.{Holds, Reason, reasons_of};
ghost use Rattle.cif_why_model.specs.Parties.{AllCan, HasOneRole, SomeAgrees};
ghost use Rattle.cif_why_model.specs.Telling.{TellsOf};

/// Where no automaton blocks an event, and a channel has a sender and a receiver that can, some choice agrees with it.
pub fn some_choice_agrees()
    ensures { (m : System) (s : State) (e : ℕ) → HasOneRole m e → AllCan m s e → SomeAgrees m s e }
{}

/// There is no reason only where the event has a step.
pub fn no_reason_means_a_step()
    ensures { (names : ℕ → List ℕ) (m : System) (t : Told) (s : State) (e : ℕ) → HasOneRole m e → TellsOf names m t → reasons_of m t s e ≡ [] →
        (next : State) × (first_step m s e ≡ Some next) }
{}

/// Each reason that is told holds.
pub fn reasons_hold()
    ensures { (m : System) (t : Told) (s : State) (e : ℕ) (r : Reason) → Member r (reasons_of m t s e) → Holds m t s e r }
{}

/// Where an event has no step, each reason that holds is told.
pub fn all_that_hold_are_told()
    ensures { (names : ℕ → List ℕ) (m : System) (t : Told) (s : State) (e : ℕ) (r : Reason) → TellsOf names m t → first_step m s e ≡ None →
        Holds m t s e r → Member r (reasons_of m t s e) }
{}
