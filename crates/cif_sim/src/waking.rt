//! Events that may have a step again, since something that they read has changed.

ghost use Rattle.std.specs.Prelude.{◌≡◌, ◌<◌, Some, length, map, slice_get};
ghost use Rattle.cif_net_expr.specs.View.{view_update, view_updates, view_update_branches};
ghost use Rattle.cif_net.specs.View.{choice_tree, move_tree};
ghost use Rattle.cif_net.specs.declared.listing.Choice.{Choice};
ghost use Rattle.cif_sim.specs.Marks.{woken};
ghost use Rattle.cif_sim.specs.Readers.{list_at};
ghost use Rattle.cif_sim.specs.Waking.{Woke, woken_branches, woken_by, woken_moves, woken_update, woken_updates};

use crate::marks::Marks;
use crate::readers::Readers;
use cif_base::Items;
use cif_net::{Choice, Guarded, Move, NetUpdate, NetUpdateBranch};

fn wake_all(events: &[u32], marks: &mut Marks)
    ensures { marks.new ≡ woken events.now marks.old }
{
    for event in events {
        marks.wake(*event);
    }
}

/// Wakes the events of the list with this number.
pub(crate) fn wake_at(lists: &Items<Items<u32>>, at: u32, marks: &mut Marks)
    ensures { marks.new ≡ woken (list_at lists.now at) marks.old }
{
    if let Some(events) = lists.get(at as usize) {
        wake_all(events.as_slice(), marks);
    }
}

/// Wakes the events that read what the choice with this number moves or may assign, or all, where these are not more.
pub(crate) fn wake_after(guarded: &Guarded, choice: u32, readers: &Readers, marks: &mut Marks)
    requires { choice < length guarded.now.choices }
    ensures { (c : Choice) → slice_get guarded.now.choices choice ≡ Some c → Woke readers.now (choice_tree c) marks.old marks.new }
{
    let chosen = &guarded.choices.as_slice()[choice as usize];
    let all = marks.count();
    if count_woken(chosen, readers) >= all as usize {
        marks.wake(all);
        return;
    }
    wake_by(chosen, readers, marks);
}

fn wake_by(choice: &Choice, readers: &Readers, marks: &mut Marks)
    ensures { marks.new ≡ woken_by readers.now (choice_tree choice.now) marks.old }
{
    wake_moves(&readers.places, choice.moves.as_slice(), marks);
    wake_updates(&readers.vars, choice.writes.as_slice(), marks);
}

/// Wakes the events that read the place of an automaton that takes an edge.
fn wake_moves(places: &Items<Items<u32>>, moves: &[Move], marks: &mut Marks)
    ensures { marks.new ≡ woken_moves places.now (map move_tree moves.now) marks.old }
{
    for step in moves {
        if step.edge.is_some() {
            wake_at(places, step.auto, marks);
        }
    }
}

/// Wakes the events that read a variable that updates assign in any branch.
#[cycle(waking)]
fn wake_updates(vars: &Items<Items<u32>>, updates: &[NetUpdate], marks: &mut Marks)
    ensures { marks.new ≡ woken_updates vars.now (view_updates updates.now) marks.old }
{
    for update in updates {
        wake_update(vars, update, marks);
    }
}

#[cycle(waking)]
fn wake_update(vars: &Items<Items<u32>>, update: &NetUpdate, marks: &mut Marks)
    ensures { marks.new ≡ woken_update vars.now (view_update update.now) marks.old }
{
    match update {
        NetUpdate::Set { var, value: _ } => wake_at(vars, *var, marks),
        NetUpdate::If { branches, other } => {
            wake_branches(vars, branches.as_slice(), marks);
            wake_updates(vars, other.as_slice(), marks);
        }
    }
}

#[cycle(waking)]
fn wake_branches(vars: &Items<Items<u32>>, branches: &[NetUpdateBranch], marks: &mut Marks)
    ensures { marks.new ≡ woken_branches vars.now (view_update_branches branches.now) marks.old }
{
    for branch in branches {
        wake_updates(vars, branch.updates.as_slice(), marks);
    }
}

/// How many marks `wake_by` turns on, each as often as it does so.
fn count_woken(choice: &Choice, readers: &Readers) -> usize {
    count_moves(&readers.places, choice.moves.as_slice()).saturating_add(count_updates(
        &readers.vars,
        choice.writes.as_slice(),
    ))
}

fn count_at(lists: &Items<Items<u32>>, at: u32) -> usize {
    match lists.get(at as usize) {
        Some(events) => events.len(),
        None => 0,
    }
}

fn count_moves(places: &Items<Items<u32>>, moves: &[Move]) -> usize {
    let mut count: usize = 0;
    for step in moves {
        count = count.saturating_add(count_at(places, step.auto));
    }
    count
}

#[cycle(counting)]
fn count_updates(vars: &Items<Items<u32>>, updates: &[NetUpdate]) -> usize {
    let mut count: usize = 0;
    for update in updates {
        count = count.saturating_add(count_update(vars, update));
    }
    count
}

#[cycle(counting)]
fn count_update(vars: &Items<Items<u32>>, update: &NetUpdate) -> usize {
    match update {
        NetUpdate::Set { var, value: _ } => count_at(vars, *var),
        NetUpdate::If { branches, other } => {
            let count = count_branches(vars, branches.as_slice());
            count.saturating_add(count_updates(vars, other.as_slice()))
        }
    }
}

#[cycle(counting)]
fn count_branches(vars: &Items<Items<u32>>, branches: &[NetUpdateBranch]) -> usize {
    let mut count: usize = 0;
    for branch in branches {
        count = count.saturating_add(count_updates(vars, branch.updates.as_slice()));
    }
    count
}
