//! What the values of an edge go to (CIF 3 language reference, "Automata", "Channels").

ghost use Rattle.std.specs.Prelude.{◌≡◌, slice_get};
ghost use Rattle.cif_net.specs.Parts.{edge_tree};
ghost use Rattle.cif_net_expr.specs.View.{view_update, view_updates, view_update_branches};
ghost use Rattle.cif_why_lines.specs.Searches.{searched_all, searched_at, searched_by, searched_in};
ghost use Rattle.cif_why_lines.specs.Targets.{assigned_targets, targets_of};

use cif_net::{NetEdge, NetUpdate, NetUpdateBranch};

/// The event on which a value is sent, or the variable to which it is assigned.
#[derive(Clone, Copy)]
pub(crate) enum Target {
    Event(u32),
    Variable(u32),
}

/// The result of a search among the right sides of updates, in text order: the variable that the one with the number
/// assigns, or the number minus their count.
#[derive(Clone, Copy)]
pub(crate) enum Search {
    Found(u32),
    Left(u32),
}

/// The target of a value of an edge by its number from 0: the sent value, if there is one, and then the right sides of all
/// updates in text order, those of branches not taken too.
pub(crate) fn target_of(edge: &NetEdge, number: u32) -> Option<Target>
    ensures { result ≡ slice_get (targets_of (edge_tree edge.now)) number }
{
    if edge.sent.is_none() {
        return assigned_at(edge.updates.as_slice(), number);
    }
    if number == 0 {
        return Some(Target::Event(edge.event));
    }
    assigned_at(edge.updates.as_slice(), number - 1)
}

/// The variable that a right side assigns, by its number.
fn assigned_at(updates: &[NetUpdate], number: u32) -> Option<Target>
    ensures { result ≡ slice_get (assigned_targets (view_updates updates.now)) number }
{
    match search_all(updates, number) {
        Search::Found(variable) => Some(Target::Variable(variable)),
        Search::Left(_) => None,
    }
}

#[cycle(searching)]
fn search_all(updates: &[NetUpdate], number: u32) -> Search
    ensures { result ≡ searched_all (view_updates updates.now) number }
{
    let mut left = number;
    for update in updates {
        match search_one(update, left) {
            Search::Found(variable) => return Search::Found(variable),
            Search::Left(behind) => left = behind,
        }
    }
    Search::Left(left)
}

#[cycle(searching)]
fn search_one(update: &NetUpdate, number: u32) -> Search
    ensures { result ≡ searched_by (view_update update.now) number }
{
    match update {
        NetUpdate::Set { var, .. } => search_set(*var, number),
        NetUpdate::If { branches, other } => match search_branches(branches.as_slice(), number) {
            Search::Found(variable) => Search::Found(variable),
            Search::Left(behind) => search_all(other.as_slice(), behind),
        },
    }
}

#[cycle(searching)]
fn search_branches(branches: &[NetUpdateBranch], number: u32) -> Search
    ensures { result ≡ searched_in (view_update_branches branches.now) number }
{
    let mut left = number;
    for branch in branches {
        match search_all(branch.updates.as_slice(), left) {
            Search::Found(variable) => return Search::Found(variable),
            Search::Left(behind) => left = behind,
        }
    }
    Search::Left(left)
}

/// The search at one right side.
fn search_set(variable: u32, number: u32) -> Search
    ensures { result ≡ searched_at variable number }
{
    if number == 0 {
        return Search::Found(variable);
    }
    Search::Left(number - 1)
}
