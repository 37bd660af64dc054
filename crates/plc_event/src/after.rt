//! The names after a choice: an automaton that takes an edge is known to be where that ends, and a variable that is assigned is
//! read as its new value.

ghost use Rattle.std.specs.Prelude.{◌≡◌, ℕ, map, nat_eq, slice_get, if◌then◌else◌, IfOk, OnOk, Some};
ghost use Rattle.cif_net_model.specs.Facts.{has};
ghost use Rattle.cif_net.specs.View.{choice_tree, move_tree, net_tree};
ghost use Rattle.plc_expr.specs.Written.{name_at};
ghost use Rattle.plc_event.specs.After.{AreAfter, AreSame, moved_to, place_by};
ghost use Rattle.plc_event.specs.Writers.{new_names_of};

use crate::moves::target;
use crate::targets::targets_of;
use crate::writing::Writer;
use cif_base::{Items, Memory, Text};
use cif_net::{Choice, Move, Net};
use plc_expr::{Names, PlaceText};
use std::alloc::Global;

/// Copies the name of a variable from another table. A variable that neither table has is reported as `Memory`; no choice has
/// one.
fn take_name(
    alloc: Global,
    variable: u32,
    from: &Items<Text>,
    names: &mut Items<Text>,
) -> Result<(), Memory>
    ensures { OnOk result ((v : ℕ) → name_at names.new v ≡ (if nat_eq v variable then name_at from.now v else name_at names.old v)) }
{
    let at = variable as usize;
    let Some(name) = from.get(at) else {
        return Err(Memory);
    };
    let copied = name.copy(alloc)?;
    if at >= names.len() {
        return Err(Memory);
    }
    names.set(at, copied);
    Ok(())
}

/// Copies the names of these variables from another table.
fn take_names(
    alloc: Global,
    variables: &[u32],
    from: &Items<Text>,
    names: &mut Items<Text>,
) -> Result<(), Memory>
    ensures { OnOk result ((v : ℕ) → name_at names.new v ≡ (if has variables.now v then name_at from.now v else name_at names.old v)) }
{
    for variable in variables {
        take_name(alloc, *variable, from, names)?;
    }
    Ok(())
}

fn copy_of(alloc: Global, place: &PlaceText) -> Result<PlaceText, Memory>
    ensures { IfOk result (λ x. x ≡ place.now) }
{
    match place {
        PlaceText::Held(name) => Ok(PlaceText::Held(name.copy(alloc)?)),
        PlaceText::Known(known) => Ok(PlaceText::Known(*known)),
    }
}

/// The automaton is known to be in the place `to`, and without one its place is written as before. An automaton that is not in
/// the tables is reported as `Memory`; no choice has one.
fn set_place(
    alloc: Global,
    auto: u32,
    to: Option<u32>,
    before: &Items<PlaceText>,
    places: &mut Items<PlaceText>,
) -> Result<(), Memory>
    ensures { OnOk result ((j : ℕ) → slice_get places.new j ≡ (if nat_eq j auto then moved_to to (slice_get before.now j) else slice_get places.old j)) }
{
    let at = auto as usize;
    if at >= places.len() {
        return Err(Memory);
    }
    places.set(at, place_of(alloc, at, to, before)?);
    Ok(())
}

fn place_of(
    alloc: Global,
    at: usize,
    to: Option<u32>,
    before: &Items<PlaceText>,
) -> Result<PlaceText, Memory>
    ensures { IfOk result (λ x. Some x ≡ moved_to to (slice_get before.now at)) }
{
    if let Some(place) = to {
        return Ok(PlaceText::Known(place));
    }
    match before.get(at) {
        Some(place) => copy_of(alloc, place),
        None => Err(Memory),
    }
}

/// The automata are where these moves take them.
fn move_places(
    alloc: Global,
    net: &Net,
    moves: &[Move],
    before: &Items<PlaceText>,
    places: &mut Items<PlaceText>,
) -> Result<(), Memory>
    requires { (j : ℕ) → slice_get places.now j ≡ slice_get before.now j }
    ensures { OnOk result ((j : ℕ) → slice_get places.new j ≡ place_by (net_tree net.now) (map move_tree moves.now) before.now j) }
{
    for at in (0..moves.len()).rev() {
        let step = &moves[at];
        set_place(alloc, step.auto, target(net, *step), before, places)?;
    }
    Ok(())
}

/// The places of the automata in these moves are written as before.
fn reset_places(
    alloc: Global,
    net: &Net,
    moves: &[Move],
    before: &Items<PlaceText>,
    places: &mut Items<PlaceText>,
) -> Result<(), Memory>
    requires { (j : ℕ) → slice_get places.now j ≡ place_by (net_tree net.now) (map move_tree moves.now) before.now j }
    ensures { OnOk result ((j : ℕ) → slice_get places.new j ≡ slice_get before.now j) }
{
    for step in moves {
        set_place(alloc, step.auto, None, before, places)?;
    }
    Ok(())
}

impl<'a> Writer<'a> {
    /// The names become those after the choice. The time is linear in the choice.
    pub(crate) fn begin_after(&self, choice: &Choice, after: &mut Names) -> Result<(), Memory>
        requires { AreSame after.now self.now.names.now }
        ensures { OnOk result (AreAfter (net_tree self.now.net.now) self.now.names.now (new_names_of self.now.new.now) (choice_tree choice.now) after.new) }
    {
        let targets = targets_of(self.alloc, choice.writes.as_slice())?;
        take_names(
            self.alloc,
            targets.as_slice(),
            &self.new.next,
            &mut after.variables,
        )?;
        let moves = choice.moves.as_slice();
        let before = &self.names.places;
        move_places(self.alloc, self.net, moves, before, &mut after.places)?;
        after.received = self.names.received.copy(self.alloc)?;
        Ok(())
    }

    /// They become those before the choice again.
    pub(crate) fn end_after(&self, choice: &Choice, after: &mut Names) -> Result<(), Memory>
        requires { AreAfter (net_tree self.now.net.now) self.now.names.now (new_names_of self.now.new.now) (choice_tree choice.now) after.now }
        ensures { OnOk result (AreSame after.new self.now.names.now) }
    {
        let targets = targets_of(self.alloc, choice.writes.as_slice())?;
        take_names(
            self.alloc,
            targets.as_slice(),
            &self.names.variables,
            &mut after.variables,
        )?;
        let moves = choice.moves.as_slice();
        let before = &self.names.places;
        reset_places(self.alloc, self.net, moves, before, &mut after.places)
    }
}
