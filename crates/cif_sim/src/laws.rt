//! The laws, each the contract of a function without a body.

ghost use Rattle.std.specs.Prelude.{◌≡◌, ◌<◌, ℕ, None, Some, length, slice_get};
ghost use Rattle.std.specs.List.{AllByRecursion};
ghost use Rattle.cif_system.specs.System.{IsState, State};
ghost use Rattle.cif_system.specs.Choices.{first_step};
ghost use Rattle.cif_system.specs.Step.{after};
ghost use Rattle.cif_net.specs.View.{choice_tree, net_tree};
ghost use Rattle.cif_net.specs.declared.guarded.Guarded.{Guarded};
ghost use Rattle.cif_net.specs.declared.listing.Choice.{Choice};
ghost use Rattle.cif_eval.specs.Choices.{choice_at, system_of};
ghost use Rattle.cif_sim.specs.Named.{SameAt, choice_names, invariant_names};
ghost use Rattle.cif_sim.specs.Stays.{StaysBut};

/// An event without a step has none in another state either, where the two are the same at all that its choices and the state
/// invariants name.
pub fn idle_events_stay_idle()
    ensures { (g : Guarded) (s t : State) (e : ℕ) → IsState (system_of g) s → IsState (system_of g) t →
        e < length g.plain.net.events →
        ((k : ℕ) (c : Choice) → slice_get g.choices k ≡ Some c → c.event ≡ e →
        AllByRecursion (SameAt s t) (choice_names (choice_tree c))) →
        AllByRecursion (SameAt s t) (invariant_names (net_tree g.plain.net)) → first_step (system_of g) s e ≡ None →
        first_step (system_of g) t e ≡ None }
{}

/// A choice leaves each automaton that its moves don't name where it is, and each variable that its updates can't assign as it is.
pub fn choices_leave_others()
    ensures { (g : Guarded) (k : ℕ) (c : Choice) (s : State) → slice_get g.choices k ≡ Some c → IsState (system_of g) s →
        StaysBut (choice_tree c) s (after (system_of g) s (choice_at g k).1) }
{}
