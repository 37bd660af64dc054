//! For each event the automata that have it in one way, in ascending number.

ghost use Rattle.std.specs.Prelude.{◌≡◌, ◌<◌, ◌^◌, length, IfOk, OnOk};
ghost use Rattle.cif_system.specs.Step.{same_role};
ghost use Rattle.cif_net.specs.View.{role_of};
ghost use Rattle.cif_sync.specs.Buckets.{all_noted};
ghost use Rattle.cif_sync.specs.Columns.{events_in, alphabets, monitored, used};

use crate::buckets::{empty_buckets, note, note_all};
use cif_base::{Items, Memory};
use cif_net::{Auto, NetEdge, NetRole};
use std::alloc::Global;

/// For each event the automata that have it in their alphabet.
pub fn alphabets_by_event(
    alloc: Global,
    events: usize,
    autos: &[Auto],
) -> Result<Items<Items<u32>>, Memory>
    requires { length autos.now < 2 ^ 32 }
    ensures { IfOk result (λ all. all ≡ alphabets events autos.now) }
{
    let mut all = empty_buckets(alloc, events)?;
    for (number, auto) in autos.iter().enumerate() {
        note_all(alloc, &mut all, number as u32, auto.alphabet.as_slice())?;
    }
    Ok(all)
}

/// For each event the automata that monitor it.
pub fn monitors_by_event(
    alloc: Global,
    events: usize,
    autos: &[Auto],
) -> Result<Items<Items<u32>>, Memory>
    requires { length autos.now < 2 ^ 32 }
    ensures { IfOk result (λ all. all ≡ monitored events autos.now) }
{
    let mut all = empty_buckets(alloc, events)?;
    for (number, auto) in autos.iter().enumerate() {
        note_all(alloc, &mut all, number as u32, auto.monitors.as_slice())?;
    }
    Ok(all)
}

/// For each event the automata with an edge for it in a role.
pub fn uses_by_event(
    alloc: Global,
    events: usize,
    autos: &[Auto],
    role: NetRole,
) -> Result<Items<Items<u32>>, Memory>
    requires { length autos.now < 2 ^ 32 }
    ensures { IfOk result (λ all. all ≡ used (role_of role) events autos.now) }
{
    let mut all = empty_buckets(alloc, events)?;
    for (number, auto) in autos.iter().enumerate() {
        note_uses(alloc, &mut all, number as u32, auto.edges.as_slice(), role)?;
    }
    Ok(all)
}

/// Notes an automaton for the events of its edges in a role.
fn note_uses(
    alloc: Global,
    buckets: &mut Items<Items<u32>>,
    number: u32,
    edges: &[NetEdge],
    role: NetRole,
) -> Result<(), Memory>
    ensures { OnOk result
        (buckets.new ≡ all_noted number (events_in (role_of role) edges.now) buckets.old) }
{
    for edge in edges {
        if is_role(role, edge.role) {
            note(alloc, buckets, number, edge.event)?;
        }
    }
    Ok(())
}

fn is_role(role: NetRole, other: NetRole) -> bool
    ensures { result ≡ same_role (role_of role) (role_of other) }
{
    match (role, other) {
        (NetRole::Sync, NetRole::Sync) => true,
        (NetRole::Send, NetRole::Send) => true,
        (NetRole::Recv, NetRole::Recv) => true,
        _ => false,
    }
}
