//! Who has an event in a role, and who can take an edge for it (CIF 3 language reference, "Synchronization", "Channels").

ghost use Rattle.std.specs.Prelude.{◌≡◌, ◌<◌, ◌^◌, pos, length, map, nat_eq, slice_index_or};
ghost use Rattle.std.specs.List.{list_any};
ghost use Rattle.cif_system.specs.Step.{same_role};
ghost use Rattle.cif_net_expr.specs.View.{view};
ghost use Rattle.cif_net_model.specs.Listing.{is_edge_for};
ghost use Rattle.cif_net.specs.View.{auto_tree, edge_tree, role_of};
ghost use Rattle.cif_net_model.specs.Safe.{IsSafe};
ghost use Rattle.cif_value.specs.Settings.{told};
ghost use Rattle.cif_why.specs.Parties.{AreSafeAutos, AreSafeGuards, can_take, is_open, some_can, some_open, takes_part};

use cif_net::{Auto, NetEdge, NetRole, State};
use cif_value::holds;

/// Whether some automaton has an event in a role.
pub(crate) fn some_party(autos: &[Auto], event: u32) -> bool
    ensures { result ≡ list_any (takes_part event) (map auto_tree autos.now) }
{
    for auto in autos {
        if is_party(auto, event) {
            return true;
        }
    }
    false
}

fn is_party(auto: &Auto, event: u32) -> bool
    ensures { result ≡ takes_part event (auto_tree auto.now) }
{
    let edges = auto.edges.as_slice();
    has(auto.alphabet.as_slice(), event)
        || has_edge(edges, NetRole::Send, event)
        || has_edge(edges, NetRole::Recv, event)
}

pub(crate) fn has(numbers: &[u32], number: u32) -> bool
    ensures { result ≡ list_any (nat_eq number) numbers.now }
{
    for found in numbers {
        if *found == number {
            return true;
        }
    }
    false
}

fn has_edge(edges: &[NetEdge], role: NetRole, event: u32) -> bool
    ensures { result ≡ list_any (is_edge_for (role_of role) event) (map edge_tree edges.now) }
{
    for edge in edges {
        if is_for(edge, role, event) {
            return true;
        }
    }
    false
}

fn is_for(edge: &NetEdge, role: NetRole, event: u32) -> bool
    ensures { result ≡ is_edge_for (role_of role) event (edge_tree edge.now) }
{
    is_role(role, edge.role) && edge.event == event
}

fn is_role(role: NetRole, other: NetRole) -> bool
    ensures { result ≡ same_role (role_of role) (role_of other) }
{
    match (role, other) {
        (NetRole::Sync, NetRole::Sync) => true,
        (NetRole::Send, NetRole::Send) => true,
        (NetRole::Recv, NetRole::Recv) => true,
        _ => false,
    }
}

/// Whether some automaton can take an edge for an event in a role.
pub(crate) fn some_can(autos: &[Auto], role: NetRole, event: u32, state: &State) -> bool
    requires few { length autos.now < 2 ^ 32 }
    requires safe { AreSafeAutos (told state.now (pos 0)) (map auto_tree autos.now) }
    ensures { result ≡ some_can (told state.now (pos 0)) (role_of role) event 0 (map auto_tree autos.now) }
{
    for (number, auto) in autos.iter().enumerate() {
        if can(auto, number as u32, role, event, state) {
            return true;
        }
    }
    false
}

/// Whether an automaton can take an edge for an event in a role.
pub(crate) fn can(auto: &Auto, number: u32, role: NetRole, event: u32, state: &State) -> bool
    requires { AreSafeGuards (told state.now (pos 0)) (map edge_tree auto.now.edges) }
    ensures { result ≡ can_take (told state.now (pos 0)) (role_of role) event number (auto_tree auto.now) }
{
    let place = place_of(state.locs.as_slice(), number);
    some_open(auto.edges.as_slice(), role, event, place, state)
}

/// The place of the automaton with this number.
pub(crate) fn place_of(places: &[u32], auto: u32) -> u32
    ensures { result ≡ slice_index_or places.now auto 0 }
{
    match places.get(auto as usize) {
        Some(place) => *place,
        None => 0,
    }
}

/// Whether an edge for an event in a role begins in a place and its guard holds.
fn some_open(edges: &[NetEdge], role: NetRole, event: u32, place: u32, state: &State) -> bool
    requires { AreSafeGuards (told state.now (pos 0)) (map edge_tree edges.now) }
    ensures { result ≡ some_open (told state.now (pos 0)) (role_of role) event place (map edge_tree edges.now) }
{
    for edge in edges {
        if is_open(edge, role, event, place, state) {
            return true;
        }
    }
    false
}

fn is_open(edge: &NetEdge, role: NetRole, event: u32, place: u32, state: &State) -> bool
    requires { IsSafe (told state.now (pos 0)) (view edge.now.guard) }
    ensures { result ≡ is_open (told state.now (pos 0)) (role_of role) event place (edge_tree edge.now) }
{
    is_for(edge, role, event) && edge.from == place && holds(&edge.guard, state)
}
