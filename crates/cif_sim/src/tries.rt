//! Choices that are tried one after the other.

ghost use Rattle.std.specs.Prelude.{◌≡◌, ◌<◌, ◌≤◌, length};
ghost use Rattle.cif_system.specs.System.{IsState};
ghost use Rattle.cif_net.specs.View.{state_tree};
ghost use Rattle.cif_eval.specs.Choices.{system_of};
ghost use Rattle.cif_eval.specs.Working.{IsScratchOf};
ghost use Rattle.cif_sim.specs.Tried.{IsFirst, Makes, after_at, makes_at};

use cif_eval::{Scratch, enabled, fire};
use cif_net::{Guarded, State};

/// Whether a choice makes a step.
#[tactic(auto, unfolding(crate::specs::Tried::makes_at))]
fn makes(guarded: &Guarded, choice: u32, state: &State, scratch: &mut Scratch) -> bool
    requires listed { choice < length guarded.now.choices }
    requires state { IsState (system_of guarded.now) (state_tree state.now) }
    requires scratch { IsScratchOf guarded.now scratch.old }
    ensures step { result ≡ makes_at guarded.now (state_tree state.now) choice }
    ensures scratch { IsScratchOf guarded.now scratch.new }
{
    enabled(guarded, choice, state, scratch)
}

/// The first choice that makes a step, of those from `from` up to but not including `to`.
pub(crate) fn first_choice(
    guarded: &Guarded,
    from: u32,
    to: u32,
    state: &State,
    scratch: &mut Scratch,
) -> Option<u32>
    requires listed { to ≤ length guarded.now.choices }
    requires state { IsState (system_of guarded.now) (state_tree state.now) }
    requires scratch { IsScratchOf guarded.now scratch.old }
    ensures first { IsFirst guarded.now (state_tree state.now) from to result }
    ensures scratch { IsScratchOf guarded.now scratch.new }
{
    for choice in from..to {
        if makes(guarded, choice, state, scratch) {
            return Some(choice);
        }
    }
    None
}

/// Makes the step of a choice.
#[tactic(auto, unfolding(crate::specs::Tried::makes_at, crate::specs::Tried::after_at))]
pub(crate) fn step_by(guarded: &Guarded, choice: u32, state: &mut State, scratch: &mut Scratch)
    requires state { IsState (system_of guarded.now) (state_tree state.old) }
    requires makes { Makes guarded.now (state_tree state.old) choice }
    requires scratch { IsScratchOf guarded.now scratch.old }
    ensures after { state_tree state.new ≡ after_at guarded.now (state_tree state.old) choice }
    ensures state { IsState (system_of guarded.now) (state_tree state.new) }
    ensures scratch { IsScratchOf guarded.now scratch.new }
{
    fire(guarded, choice, state, scratch);
}
