//! Writes of a choice to a copy of a state, and how they are taken back.

ghost use Rattle.std.specs.Prelude.{◌≡◌, map, slice_set};
ghost use Rattle.cif_system.specs.Step.{new_values};
ghost use Rattle.cif_net.specs.View.{auto_tree, move_tree, state_tree};
ghost use Rattle.cif_eval.specs.Copies.{copied_item};
ghost use Rattle.cif_eval.specs.Writes.{end_of, moved, written};
ghost use Rattle.cif_why.specs.Restoring.{movers, pair_in, restored, restored_state, variable_in};

use crate::numbering::Numbered;
use cif_base::Items;
use cif_net::{Auto, Move, State};

/// Writes what a choice assigns, and moves its automata.
pub(crate) fn write(autos: &[Auto], moves: &[Move], assigned: &[Numbered], next: &mut State)
    ensures { state_tree next.new ≡ written (map auto_tree autos.now) (map move_tree moves.now) (map pair_in assigned.now) (state_tree next.old) }
{
    store_all(assigned, &mut next.vals);
    move_all(autos, moves, &mut next.locs);
}

/// Copies back what a choice writes.
pub(crate) fn restore(moves: &[Move], assigned: &[Numbered], state: &State, next: &mut State)
    ensures { state_tree next.new ≡ restored_state (movers (map move_tree moves.now)) (map variable_in assigned.now) (state_tree state.now) (state_tree next.old) }
{
    restore_values(assigned, state.vals.as_slice(), &mut next.vals);
    restore_places(moves, state.locs.as_slice(), &mut next.locs);
}

/// Stores the values from the last to the first, so that of several for one variable the first counts.
fn store_all(assigned: &[Numbered], values: &mut Items<i64>)
    ensures { values.new ≡ new_values (map pair_in assigned.now) 0 values.old }
{
    for k in (0..assigned.len()).rev() {
        store_one(assigned[k], values);
    }
}

fn store_one(assigned: Numbered, values: &mut Items<i64>)
    ensures { values.new ≡ slice_set values.old (pair_in assigned).0 (pair_in assigned).1 }
{
    set_within(values, assigned.variable, assigned.value);
}

/// Moves the automata, one after the other.
fn move_all(autos: &[Auto], moves: &[Move], places: &mut Items<u32>)
    ensures { places.new ≡ moved (map auto_tree autos.now) (map move_tree moves.now) places.old }
{
    for step in moves {
        if let Some(place) = end_of(autos, *step) {
            set_within(places, step.auto, place);
        }
    }
}

/// The place in which a move ends, if it takes an edge.
#[tactic(auto, using(crate::proofs::Plain::at_mapped))]
fn end_of(autos: &[Auto], step: Move) -> Option<u32>
    ensures { result ≡ end_of (map auto_tree autos.now) (move_tree step) }
{
    let auto = autos.get(step.auto as usize)?;
    let edge = auto.edges.get(step.edge? as usize)?;
    Some(edge.to)
}

fn restore_values(assigned: &[Numbered], from: &[i64], to: &mut Items<i64>)
    ensures { to.new ≡ restored (map variable_in assigned.now) from.now to.old }
{
    for one in assigned {
        copy_item(from, to, one.variable);
    }
}

fn restore_places(moves: &[Move], from: &[u32], to: &mut Items<u32>)
    ensures { to.new ≡ restored (movers (map move_tree moves.now)) from.now to.old }
{
    for step in moves {
        copy_item(from, to, step.auto);
    }
}

/// Copies an item, where both lists have one at that place.
fn copy_item<T: Copy>(from: &[T], to: &mut Items<T>, at: u32)
    ensures { to.new ≡ copied_item from.now to.old at }
{
    match from.get(at as usize) {
        Some(item) => set_within(to, at, *item),
        None => {}
    }
}

/// Sets an item, where the list has one at that place.
#[tactic(auto, using(std::proofs::lemmas::List::set_past))]
fn set_within<T: Copy>(items: &mut Items<T>, at: u32, item: T)
    ensures { items.new ≡ slice_set items.old at item }
{
    let at = at as usize;
    if at < items.len() {
        items.set(at, item);
    }
}
