//! The values of edges that leave their ranges (CIF 3 language reference, "Channels", "Automata").

ghost use Rattle.std.specs.Prelude.{◌≡◌, ◌∷◌, ◌++◌, [], ◌+◌, ◌<◌, ◌^◌, pos, map, length, option_map, option_to_list, OnOk, IfOk, if◌then◌else◌};
ghost use Rattle.std.specs.List.{AllByRecursion};
ghost use Rattle.std.specs.Option.{option_copied};
ghost use Rattle.cif_net_model.specs.Net as n;
ghost use Rattle.cif_net_expr.specs.View.{view, view_updates};
ghost use Rattle.cif_net.specs.View.{auto_tree, choice_tree, edge_tree, event_tree, move_tree, net_tree, state_tree, var_tree};
ghost use Rattle.cif_net_model.specs.Safe.{IsSafe, value_at};
ghost use Rattle.cif_value.specs.Settings.{told};
ghost use Rattle.cif_eval.specs.Updates.{AreSafeUpdates, most_pairs};
ghost use Rattle.cif_why.specs.Leaving.{IsSafeEdge, IsSafeMove, choice_marked, edge_there, is_carried, leaving, leaving_at, move_marked, moves_marked, sending_of, uncarried, unfit};
ghost use Rattle.cif_why.specs.Numbering.{numbered_all, numbered_tree};
ghost use Rattle.cif_why.specs.Sent.{sends};

use crate::marks::mark_edge;
use crate::numbering::{Numbered, number_all};
use crate::ranges::{fits_event, fits_variable};
use cif_base::{Items, Memory};
use cif_net::{Auto, Choice, Move, Net, NetEdge, NetExpr, NetUpdate, State, Var};
use cif_value::eval;
use std::alloc::Global;

/// What a choice sends: whether its event carries that, and what is received.
#[derive(Clone, Copy)]
pub(crate) struct Sending {
    pub(crate) fits: bool,
    pub(crate) received: i64,
}

/// Marks the values of a choice that leave their ranges.
pub(crate) fn mark_choice(
    alloc: Global,
    net: &Net,
    choice: &Choice,
    state: &State,
    marks: &mut Items<Items<Items<bool>>>,
) -> Result<(), Memory>
    requires sent { AllByRecursion (IsSafe (told state.now (pos 0))) (option_to_list (option_map view choice.now.sent)) }
    requires moves { AllByRecursion (IsSafeMove (map auto_tree net.now.autos) (state_tree state.now) (sending_of (map event_tree net.now.events) (state_tree state.now) (choice_tree choice.now))) (map move_tree choice.now.moves) }
    ensures { OnOk result (marks.new ≡ choice_marked (net_tree net.now) (state_tree state.now) (choice_tree choice.now) marks.old) }
{
    let sending = sending_of(net, choice, state);
    mark_moves(
        alloc,
        net,
        choice.event,
        sending,
        choice.moves.as_slice(),
        state,
        marks,
    )
}

/// What a choice sends.
pub(crate) fn sending_of(net: &Net, choice: &Choice, state: &State) -> Sending
    requires { AllByRecursion (IsSafe (told state.now (pos 0))) (option_to_list (option_map view choice.now.sent)) }
    ensures { sends result ≡ sending_of (map event_tree net.now.events) (state_tree state.now) (choice_tree choice.now) }
{
    match &choice.sent {
        Some(expr) => {
            let received = eval(expr, state, 0);
            let fits = fits_event(net.events.as_slice(), choice.event, received);
            Sending { fits, received }
        }
        None => Sending {
            fits: true,
            received: 0,
        },
    }
}

fn mark_moves(
    alloc: Global,
    net: &Net,
    event: u32,
    sending: Sending,
    moves: &[Move],
    state: &State,
    marks: &mut Items<Items<Items<bool>>>,
) -> Result<(), Memory>
    requires { AllByRecursion (IsSafeMove (map auto_tree net.now.autos) (state_tree state.now) (sends sending)) (map move_tree moves.now) }
    ensures { OnOk result (marks.new ≡ moves_marked (net_tree net.now) (state_tree state.now) event (sends sending) (map move_tree moves.now) marks.old) }
{
    for step in moves {
        mark_move(alloc, net, event, sending, *step, state, marks)?;
    }
    Ok(())
}

fn mark_move(
    alloc: Global,
    net: &Net,
    event: u32,
    sending: Sending,
    step: Move,
    state: &State,
    marks: &mut Items<Items<Items<bool>>>,
) -> Result<(), Memory>
    requires { IsSafeMove (map auto_tree net.now.autos) (state_tree state.now) (sends sending) (move_tree step) }
    ensures { OnOk result (marks.new ≡ move_marked (net_tree net.now) (state_tree state.now) event (sends sending) step.auto step.edge marks.old) }
{
    match step.edge {
        Some(edge) => {
            let numbers = leaving_at(alloc, net, event, sending, step.auto, edge, state)?;
            mark_edge(alloc, marks, step.auto, edge, numbers.as_slice());
            Ok(())
        }
        None => Ok(()),
    }
}

/// The numbers of the values of an edge that leave their ranges, none where there is no such edge.
fn leaving_at(
    alloc: Global,
    net: &Net,
    event: u32,
    sending: Sending,
    auto: u32,
    edge: u32,
    state: &State,
) -> Result<Items<u32>, Memory>
    requires { (y : n.NetEdge) → edge_there (map auto_tree net.now.autos) auto edge ≡ Some y → IsSafeEdge (state_tree state.now) (sends sending) y }
    ensures { IfOk result (λ all. all ≡ leaving_at (net_tree net.now) (state_tree state.now) event (sends sending) auto edge) }
{
    match edge_there(net.autos.as_slice(), auto, edge) {
        Some(edge) => leaving(alloc, net, event, sending, edge, state),
        None => Ok(Items::new(alloc)),
    }
}

/// The edge of an automaton, if both are there.
pub(crate) fn edge_there(autos: &[Auto], auto: u32, edge: u32) -> Option<&NetEdge>
    ensures { option_map edge_tree (option_copied result) ≡ edge_there (map auto_tree autos.now) auto edge }
{
    let auto = autos.get(auto as usize)?;
    auto.edges.get(edge as usize)
}

/// The numbers of the values of an edge that leave their ranges.
fn leaving(
    alloc: Global,
    net: &Net,
    event: u32,
    sending: Sending,
    edge: &NetEdge,
    state: &State,
) -> Result<Items<u32>, Memory>
    requires { IsSafeEdge (state_tree state.now) (sends sending) (edge_tree edge.now) }
    ensures { IfOk result (λ all. all ≡ leaving (net_tree net.now) (state_tree state.now) event (sends sending) (edge_tree edge.now)) }
{
    let mut all = Items::new(alloc);
    let first = add_uncarried(net, event, &edge.sent, state, &mut all)?;
    if sending.fits {
        let updates = edge.updates.as_slice();
        add_unfit(
            alloc,
            net,
            updates,
            first,
            state,
            sending.received,
            &mut all,
        )?;
    }
    Ok(all)
}

/// Adds the number of the sent value where there is one and its event does not carry it, and returns the number behind.
fn add_uncarried(
    net: &Net,
    event: u32,
    sent: &Option<NetExpr>,
    state: &State,
    all: &mut Items<u32>,
) -> Result<u32, Memory>
    requires { AllByRecursion (IsSafe (told state.now (pos 0))) (option_to_list (option_map view sent.now)) }
    ensures first { IfOk result (λ first. first ≡ length (option_to_list (option_map view sent.now))) }
    ensures all { OnOk result (all.new ≡ all.old ++ uncarried (map event_tree net.now.events) event (told state.now (pos 0)) (option_map view sent.now)) }
{
    match sent {
        Some(expr) => {
            let value = eval(expr, state, 0);
            if !fits_event(net.events.as_slice(), event, value) {
                all.push(0)?;
            }
            Ok(1)
        }
        None => Ok(0),
    }
}

/// Adds the numbers of the assigned values that their variables do not take.
fn add_unfit(
    alloc: Global,
    net: &Net,
    updates: &[NetUpdate],
    first: u32,
    state: &State,
    received: i64,
    all: &mut Items<u32>,
) -> Result<(), Memory>
    requires safe { AreSafeUpdates (told state.now received) (view_updates updates.now) }
    requires few { first + most_pairs (view_updates updates.now) < 2 ^ 32 }
    ensures { OnOk result (all.new ≡ all.old ++ unfit (map var_tree net.now.vars) (numbered_all (told state.now received) first (view_updates updates.now))) }
{
    let mut found = Items::new(alloc);
    number_all(updates, first, state, received, &mut found)?;
    keep_unfit(net.vars.as_slice(), found.as_slice(), all)
}

fn keep_unfit(vars: &[Var], found: &[Numbered], all: &mut Items<u32>) -> Result<(), Memory>
    ensures { OnOk result (all.new ≡ all.old ++ unfit (map var_tree vars.now) (map numbered_tree found.now)) }
{
    for assigned in found {
        if !fits_variable(vars, assigned.variable, assigned.value) {
            all.push(assigned.number)?;
        }
    }
    Ok(())
}
