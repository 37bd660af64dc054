//! Writes of new values and of new places.

ghost use Rattle.std.specs.Prelude.{◌≡◌, map, slice_set};
ghost use Rattle.cif_system.specs.Step.{new_values};
ghost use Rattle.cif_net.specs.View.{auto_tree, move_tree};
ghost use Rattle.cif_eval.specs.Writes.{end_of, moved};

use cif_base::Items;
use cif_net::{Auto, Move};

/// Sets an item, where the list has one at that place.
#[tactic(auto, using(std::proofs::lemmas::List::set_past))]
pub(crate) fn set_within<T: Copy>(items: &mut Items<T>, at: u32, item: T)
    ensures { items.new ≡ slice_set items.old at item }
{
    let at = at as usize;
    if at < items.len() {
        items.set(at, item);
    }
}

/// Stores the pairs from the last to the first, so that of several for one variable the first counts.
#[tactic(auto, using(crate::proofs::Stored::stored_first, crate::proofs::Stored::none_stored))]
pub(crate) fn store_all(pairs: &[(u32, i64)], values: &mut Items<i64>)
    ensures { values.new ≡ new_values pairs.now 0 values.old }
{
    for k in (0..pairs.len()).rev() {
        store_one(pairs[k], values);
    }
}

fn store_one(pair: (u32, i64), values: &mut Items<i64>)
    ensures { values.new ≡ slice_set values.old pair.0 pair.1 }
{
    let (variable, value) = pair;
    set_within(values, variable, value);
}

/// The place in which a move ends, if it takes an edge.
#[tactic(auto, using(crate::proofs::Reading::at_mapped))]
fn end_of(autos: &[Auto], step: Move) -> Option<u32>
    ensures { result ≡ end_of (map auto_tree autos.now) (move_tree step) }
{
    let auto = autos.get(step.auto as usize)?;
    let edge = auto.edges.get(step.edge? as usize)?;
    Some(edge.to)
}

/// Moves the automata, one after the other.
pub(crate) fn move_all(autos: &[Auto], moves: &[Move], places: &mut Items<u32>)
    ensures { places.new ≡ moved (map auto_tree autos.now) (map move_tree moves.now) places.old }
{
    for step in moves {
        if let Some(place) = end_of(autos, *step) {
            set_within(places, step.auto, place);
        }
    }
}
