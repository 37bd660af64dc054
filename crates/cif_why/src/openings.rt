//! What each automaton can do for an event in a state.

ghost use Rattle.std.specs.Prelude.{◌≡◌, ◌<◌, ◌^◌, false, pos, length, map, slice_index_or, IfOk};
ghost use Rattle.std.specs.List.{list_all};
ghost use Rattle.cif_system.specs.System.{IsState};
ghost use Rattle.cif_net_expr.specs.View.{view};
ghost use Rattle.cif_net_model.specs.Meaning.{system_of_net};
ghost use Rattle.cif_net.specs.View.{auto_tree, choice_tree, edge_tree, move_tree, net_tree, state_tree};
ghost use Rattle.cif_net_model.specs.Safe.{IsSafe};
ghost use Rattle.cif_value.specs.Settings.{told};
ghost use Rattle.cif_why.specs.Agreeing.{is_agreeing};
ghost use Rattle.cif_why.specs.Openings.{allows, is_ready, move_ready, openings_from};
ghost use Rattle.cif_why.specs.Parties.{AreSafeAutos, AreSafeGuards};

use crate::parties::{can, place_of};
use cif_base::{Items, Memory};
use cif_net::{Auto, Choice, Move, NetEdge, NetRole, Plain, State};
use cif_value::holds;
use std::alloc::Global;

/// Which edges of an automaton are enabled for an event, and whether one of these synchronises.
#[derive(Drop)]
pub(crate) struct Opening {
    edges: Items<bool>,
    syncs: bool,
}

/// What each automaton of a net can do for an event.
pub(crate) fn openings_of(
    alloc: Global,
    plain: &Plain,
    state: &State,
    event: u32,
) -> Result<Items<Opening>, Memory>
    requires { IsState (system_of_net (net_tree plain.now.net)) (state_tree state.now) }
    ensures { IfOk result (λ all. all ≡ openings_from (told state.now (pos 0)) event 0 (map auto_tree plain.now.net.autos)) }
{
    openings(alloc, plain.net.autos.as_slice(), state, event)
}

fn openings(
    alloc: Global,
    autos: &[Auto],
    state: &State,
    event: u32,
) -> Result<Items<Opening>, Memory>
    requires few { length autos.now < 2 ^ 32 }
    requires safe { AreSafeAutos (told state.now (pos 0)) (map auto_tree autos.now) }
    ensures { IfOk result (λ all. all ≡ openings_from (told state.now (pos 0)) event 0 (map auto_tree autos.now)) }
{
    let mut all = Items::new(alloc);
    for (number, auto) in autos.iter().enumerate() {
        let number = number as u32;
        let place = place_of(state.locs.as_slice(), number);
        let edges = ready_edges(alloc, auto.edges.as_slice(), state, event, place)?;
        let syncs = can(auto, number, NetRole::Sync, event, state);
        all.push(Opening { edges, syncs })?;
    }
    Ok(all)
}

/// Which edges are enabled for an event in a place.
fn ready_edges(
    alloc: Global,
    edges: &[NetEdge],
    state: &State,
    event: u32,
    place: u32,
) -> Result<Items<bool>, Memory>
    requires { AreSafeGuards (told state.now (pos 0)) (map edge_tree edges.now) }
    ensures { IfOk result (λ all. all ≡ map (is_ready (told state.now (pos 0)) event place) (map edge_tree edges.now)) }
{
    let mut all = Items::new(alloc);
    for edge in edges {
        all.push(is_ready(edge, state, event, place))?;
    }
    Ok(all)
}

fn is_ready(edge: &NetEdge, state: &State, event: u32, place: u32) -> bool
    requires { IsSafe (told state.now (pos 0)) (view edge.now.guard) }
    ensures { result ≡ is_ready (told state.now (pos 0)) event place (edge_tree edge.now) }
{
    edge.event == event && edge.from == place && holds(&edge.guard, state)
}

/// Whether each move takes an enabled edge, or stays where no enabled edge synchronises.
fn all_ready(openings: &[Opening], moves: &[Move]) -> bool
    ensures { result ≡ list_all (move_ready openings.now) (map move_tree moves.now) }
{
    for step in moves {
        if !move_ready(openings, *step) {
            return false;
        }
    }
    true
}

fn move_ready(openings: &[Opening], step: Move) -> bool
    ensures { result ≡ move_ready openings.now (move_tree step) }
{
    match openings.get(step.auto as usize) {
        Some(opening) => allows(opening, step.edge),
        None => false,
    }
}

fn allows(opening: &Opening, edge: Option<u32>) -> bool
    ensures { result ≡ allows opening.now edge }
{
    match edge {
        Some(edge) => flag_at(opening.edges.as_slice(), edge),
        None => !opening.syncs,
    }
}

fn flag_at(flags: &[bool], number: u32) -> bool
    ensures { result ≡ slice_index_or flags.now number false }
{
    match flags.get(number as usize) {
        Some(flag) => *flag,
        None => false,
    }
}

/// Whether a choice is one for an event, and agrees with it.
pub(crate) fn is_agreeing(openings: &[Opening], choice: &Choice, event: u32) -> bool
    ensures { result ≡ is_agreeing openings.now event (choice_tree choice.now) }
{
    choice.event == event && all_ready(openings, choice.moves.as_slice())
}
