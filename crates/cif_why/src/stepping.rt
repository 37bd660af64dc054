//! Whether an event has a step.

ghost use Rattle.std.specs.Prelude.{◌≡◌, ◌<◌, length, nat_eq, is_some, map, slice_get, IfOk, Some};
ghost use Rattle.std.specs.List.{list_any};
ghost use Rattle.cif_system.specs.System.{IsState};
ghost use Rattle.cif_system.specs.Choices.{first_step};
ghost use Rattle.cif_net_model.specs.Listing.{full_choices};
ghost use Rattle.cif_net.specs.View.{choice_tree, net_tree, state_tree};
ghost use Rattle.cif_eval.specs.Choices.{choice_at, system_of};
ghost use Rattle.cif_eval.specs.Working.{IsScratchOf};
ghost use Rattle.cif_why.specs.Stepping.{makes};

use cif_base::Memory;
use cif_eval::{Scratch, enabled};
use cif_net::{Choice, Guarded, State};
use std::alloc::Global;

/// Whether an event has a step in a state.
pub(crate) fn has_step(
    alloc: Global,
    guarded: &Guarded,
    state: &State,
    event: u32,
) -> Result<bool, Memory>
    requires event { event < length guarded.now.plain.net.events }
    requires state { IsState (system_of guarded.now) (state_tree state.now) }
    ensures { IfOk result (λ found. found ≡ is_some (first_step (system_of guarded.now) (state_tree state.now) event)) }
{
    let count = count_of(guarded.choices.as_slice())?;
    let mut scratch = Scratch::new(alloc, guarded)?;
    Ok(has_enabled(guarded, count, state, event, &mut scratch))
}

/// Whether an event has a step.
fn has_enabled(
    guarded: &Guarded,
    count: u32,
    state: &State,
    event: u32,
    scratch: &mut Scratch,
) -> bool
    requires event { event < length guarded.now.plain.net.events }
    requires count { count ≡ length guarded.now.choices }
    requires state { IsState (system_of guarded.now) (state_tree state.now) }
    requires scratch { IsScratchOf guarded.now scratch.old }
    ensures { result ≡ is_some (first_step (system_of guarded.now) (state_tree state.now) event) }
{
    some_enabled(guarded, count, state, event, scratch)
}

/// The number of choices, or `Memory` beyond 32 bits.
fn count_of(choices: &[Choice]) -> Result<u32, Memory>
    ensures { IfOk result (λ count. count ≡ length choices.now) }
{
    match u32::try_from(choices.len()) {
        Ok(count) => Ok(count),
        Err(_) => Err(Memory),
    }
}

/// Whether some choice of an event makes a step.
#[tactic(auto, using(crate::proofs::Steps::any_next, crate::proofs::Steps::full_length))]
fn some_enabled(
    guarded: &Guarded,
    count: u32,
    state: &State,
    event: u32,
    scratch: &mut Scratch,
) -> bool
    requires count { count ≡ length guarded.now.choices }
    requires state { IsState (system_of guarded.now) (state_tree state.now) }
    requires scratch { IsScratchOf guarded.now scratch.old }
    ensures { result ≡ list_any (makes (system_of guarded.now) (state_tree state.now) event) (full_choices (net_tree guarded.now.plain.net) (map choice_tree guarded.now.choices)) }
{
    for choice in 0..count {
        if makes(guarded, choice, state, event, scratch) {
            return true;
        }
    }
    false
}

/// Whether a choice is one for an event, and makes a step.
fn makes(guarded: &Guarded, choice: u32, state: &State, event: u32, scratch: &mut Scratch) -> bool
    requires listed { choice < length guarded.now.choices }
    requires state { IsState (system_of guarded.now) (state_tree state.now) }
    requires scratch { IsScratchOf guarded.now scratch.old }
    ensures made { result ≡ makes (system_of guarded.now) (state_tree state.now) event (choice_at guarded.now choice) }
    ensures scratch { IsScratchOf guarded.now scratch.new }
{
    is_of(guarded, choice, event) && enabled(guarded, choice, state, scratch)
}

/// Whether a choice is one for an event.
fn is_of(guarded: &Guarded, choice: u32, event: u32) -> bool
    requires { choice < length guarded.now.choices }
    ensures { result ≡ nat_eq (choice_at guarded.now choice).0 event }
{
    chosen(guarded, choice).event == event
}

/// The choice with this number.
fn chosen(guarded: &Guarded, choice: u32) -> &Choice
    requires { choice < length guarded.now.choices }
    ensures { slice_get guarded.now.choices choice ≡ Some result.now }
{
    &guarded.choices.as_slice()[choice as usize]
}
