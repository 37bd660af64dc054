//! What an automaton may do for an event.

ghost use Rattle.std.specs.Prelude.{◌≡◌, ◌<◌, ◌^◌, nat_eq, length, map, IfOk};
ghost use Rattle.std.specs.List.{list_any};
ghost use Rattle.cif_system.specs.Step.{same_role};
ghost use Rattle.cif_net_model.specs.Listing.{is_edge_for};
ghost use Rattle.cif_net.specs.View.{role_of, edge_tree, auto_tree};
ghost use Rattle.cif_lin.specs.Cells as c;

use cif_base::{Items, Memory};
use cif_net::{Auto, Net, NetEdge, NetRole};
use std::alloc::Global;

/// The edges of an automaton for an event in a role, by number in text order.
#[tactic(auto, using(crate::proofs::NetLaws::short_edges))]
pub fn edges_at(
    alloc: Global,
    net: &Net,
    event: u32,
    auto_number: u32,
    role: NetRole,
) -> Result<Items<Option<u32>>, Memory>
    ensures { IfOk result
        (λ all. all ≡ c.edges_at (map auto_tree net.now.autos) (role_of role) event auto_number) }
{
    match net.autos.get(auto_number as usize) {
        Some(found) => numbers_for(alloc, found.edges.as_slice(), role, event),
        None => Ok(Items::new(alloc)),
    }
}

/// The edges of an automaton that synchronises on an event, and to stay where it monitors the event.
#[tactic(auto, using(crate::proofs::NetLaws::short_edges))]
pub fn sync_at(
    alloc: Global,
    net: &Net,
    event: u32,
    auto_number: u32,
) -> Result<Items<Option<u32>>, Memory>
    ensures { IfOk result
        (λ all. all ≡ c.sync_at (map auto_tree net.now.autos) event auto_number) }
{
    match net.autos.get(auto_number as usize) {
        Some(found) => sync_options(alloc, found, event),
        None => Ok(Items::new(alloc)),
    }
}

fn sync_options(alloc: Global, found: &Auto, event: u32) -> Result<Items<Option<u32>>, Memory>
    requires { length found.now.edges < 2 ^ 32 }
    ensures { IfOk result (λ all. all ≡ c.sync_options event (auto_tree found.now)) }
{
    let mut all = numbers_for(alloc, found.edges.as_slice(), NetRole::Sync, event)?;
    let syncs = has(found.alphabet.as_slice(), event);
    let monitors = has(found.monitors.as_slice(), event);
    if syncs && monitors {
        all.push(None)?;
    }
    Ok(all)
}

fn numbers_for(
    alloc: Global,
    edges: &[NetEdge],
    role: NetRole,
    event: u32,
) -> Result<Items<Option<u32>>, Memory>
    requires { length edges.now < 2 ^ 32 }
    ensures { IfOk result
        (λ all. all ≡ c.numbers_for (role_of role) event 0 (map edge_tree edges.now)) }
{
    let mut all = Items::new(alloc);
    for (number, edge) in edges.iter().enumerate() {
        if is_for(edge, role, event) {
            all.push(Some(number as u32))?;
        }
    }
    Ok(all)
}

fn is_for(edge: &NetEdge, role: NetRole, event: u32) -> bool
    ensures { result ≡ is_edge_for (role_of role) event (edge_tree edge.now) }
{
    is_role(role, edge.role) && edge.event == event
}

fn is_role(role: NetRole, other: NetRole) -> bool
    ensures { result ≡ same_role (role_of role) (role_of other) }
{
    match (role, other) {
        (NetRole::Sync, NetRole::Sync) => true,
        (NetRole::Send, NetRole::Send) => true,
        (NetRole::Recv, NetRole::Recv) => true,
        _ => false,
    }
}

fn has(numbers: &[u32], number: u32) -> bool
    ensures { result ≡ list_any (nat_eq number) numbers.now }
{
    for found in numbers {
        if number == *found {
            return true;
        }
    }
    false
}
