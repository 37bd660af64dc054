//! The uses of events on the edges of an automaton, by the names of the events and with the roles of the edges (CIF 3 language
//! reference, "Edges", "Channels").

ghost use Rattle.std.specs.Prelude.{◌≡◌, ◌<◌, ◌++◌, map, flat_map, length, IfOk, OnOk};
ghost use Rattle.cif_system.specs.Step as step;
ghost use Rattle.cif_source.specs.Objects.{components_of};
ghost use Rattle.cif_source.specs.Source as source;
ghost use Rattle.cif_net.specs.View as net;
ghost use Rattle.cif_inst_names.specs.Looking.{AreNamesOf, source_for};
ghost use Rattle.cif_inst_automata.specs.Alphabets as alphabets;
ghost use Rattle.cif_inst_automata.specs.Views.{role_for};

use cif_ast::{Edge, EventUse, Loc, Role};
use cif_base::{Items, Memory};
use cif_inst_names::Looking;
use cif_net::NetRole;
use std::alloc::Global;

/// A use of an event: the number of the event, and the role in which the edge takes part.
#[derive(Clone, Copy, Debug, Drop)]
pub struct Used {
    pub event: u32,
    pub role: NetRole,
}

/// The role in the net.
pub(crate) fn net_role(role: &Role) -> NetRole
    ensures { result ≡ role_for (source.role_tree role.now) }
{
    match role {
        Role::Sync => NetRole::Sync,
        Role::Send(_) => NetRole::Send,
        Role::Recv => NetRole::Recv,
    }
}

// ---- those of an automaton

fn add_uses(
    looking: &Looking<'_, '_>,
    component: u32,
    uses: &[EventUse],
    all: &mut Items<Used>,
) -> Result<(), Memory>
    requires names { AreNamesOf looking.now }
    requires component { component < length (components_of (source_for looking.now)) }
    ensures { OnOk result (all.new ≡ all.old ++ map (alphabets.use_used looking.now component) (map source.use_tree uses.now)) }
{
    for event_use in uses {
        all.push(Used {
            event: looking.event(component, &event_use.name),
            role: net_role(&event_use.role),
        })?;
    }
    Ok(())
}

fn add_edges(
    looking: &Looking<'_, '_>,
    component: u32,
    edges: &[Edge],
    all: &mut Items<Used>,
) -> Result<(), Memory>
    requires names { AreNamesOf looking.now }
    requires component { component < length (components_of (source_for looking.now)) }
    ensures { OnOk result (all.new ≡ all.old ++ flat_map (alphabets.edge_used looking.now component) (map source.edge_tree edges.now)) }
{
    for edge in edges {
        add_uses(looking, component, edge.uses.as_slice(), all)?;
    }
    Ok(())
}

/// The uses of events on the edges of an automaton with these locations, in the order of the text and with repetitions.
pub(crate) fn all_used(
    alloc: Global,
    looking: &Looking<'_, '_>,
    component: u32,
    locs: &[Loc],
) -> Result<Items<Used>, Memory>
    requires names { AreNamesOf looking.now }
    requires component { component < length (components_of (source_for looking.now)) }
    ensures { IfOk result (λ all. all ≡ flat_map (alphabets.location_used looking.now component) (map source.location_tree locs.now)) }
{
    let mut all = Items::new(alloc);
    for loc in locs {
        add_edges(looking, component, loc.edges.as_slice(), &mut all)?;
    }
    Ok(all)
}

// ---- those in one role

fn same_role(one: NetRole, other: NetRole) -> bool
    ensures { result ≡ step.same_role (net.role_of one) (net.role_of other) }
{
    match one {
        NetRole::Sync => matches!(other, NetRole::Sync),
        NetRole::Send => matches!(other, NetRole::Send),
        NetRole::Recv => matches!(other, NetRole::Recv),
    }
}

/// Adds the event of a use in that role.
fn add_as(role: NetRole, one: Used, all: &mut Items<u32>) -> Result<(), Memory>
    ensures { OnOk result (all.new ≡ all.old ++ alphabets.event_as (net.role_of role) one) }
{
    if same_role(role, one.role) {
        all.push(one.event)
    } else {
        Ok(())
    }
}

/// The events of the uses in that role, in their order and with repetitions.
pub(crate) fn events_as(alloc: Global, role: NetRole, used: &[Used]) -> Result<Items<u32>, Memory>
    ensures { IfOk result (λ all. all ≡ alphabets.events_as (net.role_of role) used.now) }
{
    let mut all = Items::new(alloc);
    for one in used {
        add_as(role, *one, &mut all)?;
    }
    Ok(all)
}
