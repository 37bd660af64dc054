//! The state invariants that are false after some choice that agrees with an event (CIF 3 language reference, "Invariants").

ghost use Rattle.std.specs.Prelude.{◌≡◌, ◌++◌, ◌<◌, ◌^◌, false, true, length, map, option_map, option_to_list, pos, replicate, if◌then◌else◌, IfOk, OnOk, Some};
ghost use Rattle.std.specs.List.{AllByRecursion, list_any};
ghost use Rattle.cif_system.specs.System.{IsState};
ghost use Rattle.cif_net_expr.specs.View.{view, view_updates};
ghost use Rattle.cif_net_model.specs.Net as n;
ghost use Rattle.cif_net.specs.View.{auto_tree, choice_tree, edge_tree, event_tree, invariant_tree, move_tree, net_tree, state_tree, var_tree};
ghost use Rattle.cif_net_model.specs.Safe.{IsSafe};
ghost use Rattle.cif_value.specs.Settings.{told};
ghost use Rattle.cif_eval.specs.Choices.{system_of};
ghost use Rattle.cif_why_model.specs.Reasons.{agreeing, breaks, choice_breaks, each_of};
ghost use Rattle.cif_why.specs.Agreeing.{is_agreeing};
ghost use Rattle.cif_why.specs.Breaking.{AreSafeAfter, AreSafePreds, IsSafeAssigning, all_stored, choice_falsified, choices_falsified, edge_assigned, falsified, move_assigned, moves_assigned, moves_falsified, sending_falsified};
ghost use Rattle.cif_why.specs.Leaving.{IsSafeMove, edge_there, sending_of};
ghost use Rattle.cif_why.specs.Lists.{each_from};
ghost use Rattle.cif_why.specs.Marks.{at_place};
ghost use Rattle.cif_why.specs.Numbering.{numbered_all, numbered_tree};
ghost use Rattle.cif_why.specs.Openings.{openings_from};
ghost use Rattle.cif_why.specs.Parties.{true_at};
ghost use Rattle.cif_why.specs.Sent.{sends};
ghost use Rattle.cif_why.specs.View.{reason_tree};

use crate::leaving::{Sending, edge_there, sending_of};
use crate::marks::mark;
use crate::numbering::{Numbered, number_all};
use crate::openings::{Opening, is_agreeing};
use crate::ranges::fits_variable;
use crate::reason::{Reason, add_if};
use crate::storing::{restore, write};
use cif_base::{Items, Memory};
use cif_net::{Auto, Choice, Guarded, Invariant, Move, Net, NetEdge, State, Var};
use cif_value::holds;
use std::alloc::Global;

/// Adds the state invariants that are false after some choice that agrees with an event and whose values are in range.
pub(crate) fn add_breaks(
    alloc: Global,
    guarded: &Guarded,
    openings: &[Opening],
    state: &State,
    event: u32,
    all: &mut Items<Reason>,
) -> Result<(), Memory>
    requires event { event < length guarded.now.plain.net.events }
    requires state { IsState (system_of guarded.now) (state_tree state.now) }
    requires openings { openings.now ≡ openings_from (told state.now (pos 0)) event 0 (map auto_tree guarded.now.plain.net.autos) }
    ensures { OnOk result (map reason_tree all.new ≡ map reason_tree all.old
        ++ each_of breaks (λ x. list_any (λ ch. choice_breaks (system_of guarded.now) (state_tree state.now) event ch x.1) (agreeing (system_of guarded.now) (state_tree state.now) event)) (system_of guarded.now).invariants) }
{
    let broken = broken(alloc, guarded, openings, state, event)?;
    add_broken(broken.as_slice(), all)
}

/// Adds the state invariants that are marked.
fn add_broken(marks: &[bool], all: &mut Items<Reason>) -> Result<(), Memory>
    requires { length marks.now < 2 ^ 32 }
    ensures { OnOk result (map reason_tree all.new ≡ map reason_tree all.old ++ each_from breaks (λ k b. b) 0 marks.now) }
{
    for (number, breaks) in marks.iter().enumerate() {
        let invariant = number as u32;
        add_if(all, *breaks, Reason::Breaks { invariant })?;
    }
    Ok(())
}

/// Marks of the state invariants that are false after some choice.
fn broken(
    alloc: Global,
    guarded: &Guarded,
    openings: &[Opening],
    state: &State,
    event: u32,
) -> Result<Items<bool>, Memory>
    requires state { IsState (system_of guarded.now) (state_tree state.now) }
    requires openings { openings.now ≡ openings_from (told state.now (pos 0)) event 0 (map auto_tree guarded.now.plain.net.autos) }
    ensures { IfOk result (λ all. all ≡ choices_falsified (is_agreeing openings.now event) (net_tree guarded.now.plain.net) (state_tree state.now) (map choice_tree guarded.now.choices) (replicate (length guarded.now.plain.net.invariants) false)) }
{
    let net = &guarded.plain.net;
    let choices = guarded.choices.as_slice();
    let mut marks = Items::filled(alloc, false, net.invariants.len())?;
    let mut next = copy_of(alloc, state)?;
    for choice in choices {
        if is_agreeing(openings, choice, event) {
            mark_broken(alloc, net, choice, state, &mut next, &mut marks)?;
        }
    }
    Ok(marks)
}

fn copy_of(alloc: Global, state: &State) -> Result<State, Memory>
    ensures { IfOk result (λ all. state_tree all ≡ state_tree state.now) }
{
    Ok(State {
        locs: state.locs.copy(alloc)?,
        vals: state.vals.copy(alloc)?,
        ins: state.ins.copy(alloc)?,
    })
}

/// Marks the state invariants that are false after a choice, where its values are in range. `next` is the state before and
/// after the call.
fn mark_broken(
    alloc: Global,
    net: &Net,
    choice: &Choice,
    state: &State,
    next: &mut State,
    marks: &mut Items<bool>,
) -> Result<(), Memory>
    requires sent { AllByRecursion (IsSafe (told state.now (pos 0))) (option_to_list (option_map view choice.now.sent)) }
    requires moves { AllByRecursion (IsSafeMove (map auto_tree net.now.autos) (state_tree state.now) (sending_of (map event_tree net.now.events) (state_tree state.now) (choice_tree choice.now))) (map move_tree choice.now.moves) }
    requires preds { AreSafeAfter (net_tree net.now) (state_tree state.now) (sending_of (map event_tree net.now.events) (state_tree state.now) (choice_tree choice.now)).received (map move_tree choice.now.moves) }
    requires next { state_tree next.old ≡ state_tree state.now }
    ensures marks { OnOk result (marks.new ≡ choice_falsified (net_tree net.now) (state_tree state.now) (choice_tree choice.now) marks.old) }
    ensures next { OnOk result (state_tree next.new ≡ state_tree state.now) }
{
    let sending = sending_of(net, choice, state);
    mark_sending(
        alloc,
        net,
        choice.moves.as_slice(),
        sending,
        state,
        next,
        marks,
    )
}

fn mark_sending(
    alloc: Global,
    net: &Net,
    moves: &[Move],
    sending: Sending,
    state: &State,
    next: &mut State,
    marks: &mut Items<bool>,
) -> Result<(), Memory>
    requires moves { AllByRecursion (IsSafeMove (map auto_tree net.now.autos) (state_tree state.now) (sends sending)) (map move_tree moves.now) }
    requires preds { AreSafeAfter (net_tree net.now) (state_tree state.now) sending.received (map move_tree moves.now) }
    requires next { state_tree next.old ≡ state_tree state.now }
    ensures marks { OnOk result (marks.new ≡ sending_falsified (net_tree net.now) (state_tree state.now) (sends sending) (map move_tree moves.now) marks.old) }
    ensures next { OnOk result (state_tree next.new ≡ state_tree state.now) }
{
    if sending.fits {
        mark_moves(alloc, net, moves, sending, state, next, marks)
    } else {
        Ok(())
    }
}

fn mark_moves(
    alloc: Global,
    net: &Net,
    moves: &[Move],
    sending: Sending,
    state: &State,
    next: &mut State,
    marks: &mut Items<bool>,
) -> Result<(), Memory>
    requires fits { sending.fits ≡ true }
    requires moves { AllByRecursion (IsSafeMove (map auto_tree net.now.autos) (state_tree state.now) (sends sending)) (map move_tree moves.now) }
    requires preds { AreSafeAfter (net_tree net.now) (state_tree state.now) sending.received (map move_tree moves.now) }
    requires next { state_tree next.old ≡ state_tree state.now }
    ensures marks { OnOk result (marks.new ≡ moves_falsified (net_tree net.now) (state_tree state.now) sending.received (map move_tree moves.now) marks.old) }
    ensures next { OnOk result (state_tree next.new ≡ state_tree state.now) }
{
    let autos = net.autos.as_slice();
    let assigned = assigned(alloc, autos, moves, sending, state)?;
    if !all_stored(net.vars.as_slice(), assigned.as_slice()) {
        return Ok(());
    }
    write(autos, moves, assigned.as_slice(), next);
    falsify(net.invariants.as_slice(), next, marks);
    restore(moves, assigned.as_slice(), state, next);
    Ok(())
}

/// What moves assign, in their order.
fn assigned(
    alloc: Global,
    autos: &[Auto],
    moves: &[Move],
    sending: Sending,
    state: &State,
) -> Result<Items<Numbered>, Memory>
    requires fits { sending.fits ≡ true }
    requires safe { AllByRecursion (IsSafeMove (map auto_tree autos.now) (state_tree state.now) (sends sending)) (map move_tree moves.now) }
    ensures { IfOk result (λ all. map numbered_tree all ≡ moves_assigned (map auto_tree autos.now) (state_tree state.now) sending.received (map move_tree moves.now)) }
{
    let mut all = Items::new(alloc);
    for step in moves {
        add_assigned(autos, *step, sending, state, &mut all)?;
    }
    Ok(all)
}

fn add_assigned(
    autos: &[Auto],
    step: Move,
    sending: Sending,
    state: &State,
    all: &mut Items<Numbered>,
) -> Result<(), Memory>
    requires fits { sending.fits ≡ true }
    requires safe { IsSafeMove (map auto_tree autos.now) (state_tree state.now) (sends sending) (move_tree step) }
    ensures { OnOk result (map numbered_tree all.new ≡ map numbered_tree all.old ++ move_assigned (map auto_tree autos.now) (state_tree state.now) sending.received step.auto step.edge) }
{
    match step.edge {
        Some(edge) => add_of_edge(autos, step.auto, edge, sending, state, all),
        None => Ok(()),
    }
}

fn add_of_edge(
    autos: &[Auto],
    automaton: u32,
    edge: u32,
    sending: Sending,
    state: &State,
    all: &mut Items<Numbered>,
) -> Result<(), Memory>
    requires { (y : n.NetEdge) → edge_there (map auto_tree autos.now) automaton edge ≡ Some y → IsSafeAssigning (state_tree state.now) sending.received y }
    ensures { OnOk result (map numbered_tree all.new ≡ map numbered_tree all.old ++ edge_assigned (state_tree state.now) sending.received (edge_there (map auto_tree autos.now) automaton edge)) }
{
    match edge_there(autos, automaton, edge) {
        Some(edge) => add_updates(edge, sending, state, all),
        None => Ok(()),
    }
}

fn add_updates(
    edge: &NetEdge,
    sending: Sending,
    state: &State,
    all: &mut Items<Numbered>,
) -> Result<(), Memory>
    requires { IsSafeAssigning (state_tree state.now) sending.received (edge_tree edge.now) }
    ensures { OnOk result (map numbered_tree all.new ≡ map numbered_tree all.old ++ numbered_all (told state.now sending.received) 0 (view_updates edge.now.updates)) }
{
    number_all(edge.updates.as_slice(), 0, state, sending.received, all)
}

/// Whether each variable takes its value.
fn all_stored(vars: &[Var], assigned: &[Numbered]) -> bool
    ensures { result ≡ all_stored (map var_tree vars.now) (map numbered_tree assigned.now) }
{
    for one in assigned {
        if !fits_variable(vars, one.variable, one.value) {
            return false;
        }
    }
    true
}

/// Marks the state invariants that are false.
fn falsify(invariants: &[Invariant], state: &State, marks: &mut Items<bool>)
    requires { AreSafePreds (told state.now (pos 0)) (map invariant_tree invariants.now) }
    ensures { marks.new ≡ falsified (told state.now (pos 0)) 0 (map invariant_tree invariants.now) marks.old }
{
    for (number, invariant) in invariants.iter().enumerate() {
        falsify_one(invariant, number, state, marks);
    }
}

fn falsify_one(invariant: &Invariant, number: usize, state: &State, marks: &mut Items<bool>)
    requires { IsSafe (told state.now (pos 0)) (view invariant.now.pred) }
    ensures { marks.new ≡ (if true_at (told state.now (pos 0)) (view invariant.now.pred) then marks.old else at_place (λ b. true) number marks.old) }
{
    if !holds(&invariant.pred, state) {
        mark(marks, number);
    }
}
