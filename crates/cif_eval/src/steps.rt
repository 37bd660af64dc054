//! Whether a choice makes a step, and the state after it (CIF 3 language reference, "Automata", "Channels", "Invariants").

ghost use Rattle.std.specs.Prelude.{◌≡◌, ◌<◌, ◌≤◌, pos, true, length, map, option_map, option_to_list, slice_get, unwrap_or, Some};
ghost use Rattle.std.specs.List.{AllByRecursion, list_all};
ghost use Rattle.cif_system.specs.System.{IsState};
ghost use Rattle.cif_system.specs.Step.{after, fits_channel, fits_variable, makes_step};
ghost use Rattle.cif_net_expr.specs.View.{view, view_updates};
ghost use Rattle.cif_net_model.specs.Meaning.{event_in, stored_in};
ghost use Rattle.cif_net.specs.View.{auto_tree, choice_tree, event_tree, invariant_tree, move_tree, net_tree, state_tree, var_tree};
ghost use Rattle.cif_net_model.specs.Safe.{IsSafe, value_at};
ghost use Rattle.cif_value.specs.Settings.{told};
ghost use Rattle.cif_eval.specs.Choices.{choice_at, system_of};
ghost use Rattle.cif_eval.specs.Updates.{AreSafeInvariants, AreSafeUpdates, invariants_hold, most_pairs};
ghost use Rattle.cif_eval.specs.Within.{within};
ghost use Rattle.cif_eval.specs.Working.{IsScratchOf};
ghost use Rattle.cif_eval.specs.Writes.{IsWorked, assigned_all, worked, written};

use crate::assigning::assign_all;
use crate::invariants::{all_hold, copy_invariants};
use crate::pairs::Pairs;
use crate::ranges::{all_fit, fits_event};
use crate::scratch::Scratch;
use crate::storing::{move_all, store_all};
use cif_net::{Choice, Guarded, Net, NetExpr, State};
use cif_value::{eval, holds};

/// Whether a choice makes a step of its event in a state: its edges are enabled, the values that it sends and assigns are in
/// range, no exclusion disables the event before it, and all state invariants hold after it. It takes no memory.
pub fn enabled(guarded: &Guarded, choice: u32, state: &State, scratch: &mut Scratch) -> bool
    requires listed { choice < length guarded.now.choices }
    requires state { IsState (system_of guarded.now) (state_tree state.now) }
    requires scratch { IsScratchOf guarded.now scratch.old }
    ensures step { result ≡ makes_step (system_of guarded.now) (state_tree state.now) (choice_at guarded.now choice).0 (choice_at guarded.now choice).1 }
    ensures scratch { IsScratchOf guarded.now scratch.new }
{
    let chosen = chosen(guarded, choice);
    if !holds(&chosen.test, state) {
        return false;
    }
    let net = &guarded.plain.net;
    let sent = sent_value(&chosen.sent, state);
    if !sent_fits(net, chosen, sent) {
        return false;
    }
    assign(chosen, state, sent, &mut scratch.pairs);
    if !values_fit(net, &scratch.pairs) {
        return false;
    }
    keeps_invariants(net, chosen, state, scratch)
}

/// Makes the step of a choice, so that the state is the one after it. It takes no memory.
pub fn fire(guarded: &Guarded, choice: u32, state: &mut State, scratch: &mut Scratch)
    requires listed { choice < length guarded.now.choices }
    requires state { IsState (system_of guarded.now) (state_tree state.old) }
    requires step { makes_step (system_of guarded.now) (state_tree state.old) (choice_at guarded.now choice).0 (choice_at guarded.now choice).1 ≡ true }
    requires scratch { IsScratchOf guarded.now scratch.old }
    ensures after { state_tree state.new ≡ after (system_of guarded.now) (state_tree state.old) (choice_at guarded.now choice).1 }
    ensures state { IsState (system_of guarded.now) (state_tree state.new) }
    ensures scratch { IsScratchOf guarded.now scratch.new }
{
    let chosen = chosen(guarded, choice);
    let sent = sent_value(&chosen.sent, state);
    let pairs = &mut scratch.pairs;
    assign(chosen, state, sent, pairs);
    write(&guarded.plain.net, chosen, pairs, state);
}

/// The choice with this number.
fn chosen(guarded: &Guarded, choice: u32) -> &Choice
    requires { choice < length guarded.now.choices }
    ensures { slice_get guarded.now.choices choice ≡ Some result.now }
{
    &guarded.choices.as_slice()[choice as usize]
}

/// The value that a choice sends, if it sends one.
fn sent_value(sent: &Option<NetExpr>, state: &State) -> Option<i64>
    requires { AllByRecursion (IsSafe (told state.now (pos 0))) (option_to_list (option_map view sent.now)) }
    ensures { result ≡ option_map (value_at (told state.now (pos 0))) (option_map view sent.now) }
{
    match sent {
        Some(expr) => Some(eval(expr, state, 0)),
        None => None,
    }
}

/// Whether the event of a choice carries the value that is sent, if one is.
fn sent_fits(net: &Net, chosen: &Choice, sent: Option<i64>) -> bool
    ensures { result ≡ list_all (fits_channel (slice_get (map event_in (map event_tree net.now.events)) chosen.now.event)) (option_to_list sent) }
{
    match sent {
        Some(value) => fits_event(net.events.as_slice(), chosen.event, value),
        None => true,
    }
}

/// Whether each variable takes its value.
fn values_fit(net: &Net, pairs: &Pairs) -> bool
    ensures { result ≡ list_all (λ w. fits_variable (slice_get (map stored_in (map var_tree net.now.vars)) w.0) w.1) pairs.now.pairs }
{
    all_fit(net.vars.as_slice(), pairs.as_slice())
}

/// The pairs that a choice assigns where this value is sent.
fn assign(chosen: &Choice, state: &State, sent: Option<i64>, pairs: &mut Pairs)
    requires safe { AreSafeUpdates (told state.now (unwrap_or sent (pos 0))) (view_updates chosen.now.writes) }
    requires room { most_pairs (view_updates chosen.now.writes) ≤ pairs.old.room }
    ensures pairs { pairs.new.pairs ≡ assigned_all (state_tree state.now) (unwrap_or sent (pos 0)) (view_updates chosen.now.writes) }
    ensures room { pairs.new.room ≡ pairs.old.room }
{
    pairs.clear();
    assign_all(chosen.writes.as_slice(), state, sent.unwrap_or(0), pairs);
}

/// Stores pairs, and makes the moves of a choice.
fn write(net: &Net, chosen: &Choice, pairs: &Pairs, state: &mut State)
    ensures { state_tree state.new ≡ written (map auto_tree net.now.autos) (map move_tree chosen.now.moves) pairs.now.pairs (state_tree state.old) }
{
    store_all(pairs.as_slice(), &mut state.vals);
    move_all(
        net.autos.as_slice(),
        chosen.moves.as_slice(),
        &mut state.locs,
    );
}

/// Whether the state invariants of a choice hold after it, where its pairs are given and their values are in range.
fn keeps_invariants(net: &Net, chosen: &Choice, state: &State, scratch: &mut Scratch) -> bool
    requires { AreSafeInvariants (within (worked (net_tree net.now) (choice_tree chosen.now) scratch.old.pairs.pairs (state_tree state.now) (state_tree scratch.old.next)) (pos 0)) (map invariant_tree net.now.invariants) chosen.now.invariants }
    ensures hold { result ≡ invariants_hold (within (worked (net_tree net.now) (choice_tree chosen.now) scratch.old.pairs.pairs (state_tree state.now) (state_tree scratch.old.next)) (pos 0)) (map invariant_tree net.now.invariants) chosen.now.invariants }
    ensures next { IsWorked (net_tree net.now) (choice_tree chosen.now) scratch.old.pairs.pairs (state_tree state.now) (state_tree scratch.old.next) (state_tree scratch.new.next) }
    ensures pairs { scratch.new.pairs ≡ scratch.old.pairs }
{
    if chosen.invariants.is_empty() {
        return true;
    }
    let numbers = chosen.invariants.as_slice();
    let invariants = net.invariants.as_slice();
    copy_invariants(numbers, invariants, state, &mut scratch.next);
    write(net, chosen, &scratch.pairs, &mut scratch.next);
    all_hold(numbers, invariants, &scratch.next)
}
