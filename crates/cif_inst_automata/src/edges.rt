//! The edges of an automaton, with their roles and the values that they send (CIF 3 language reference, "Edges", "Channels").

ghost use Rattle.std.specs.Prelude.{◌≡◌, ◌<◌, ◌∷◌, ◌++◌, [], map, flat_map, length, option_map, OnOk, IfOk};
ghost use Rattle.cif_source.specs.Objects.{components_of};
ghost use Rattle.cif_source.specs.Source as source;
ghost use Rattle.cif_net.specs.View.{edge_tree};
ghost use Rattle.cif_net_expr.specs.View.{view};
ghost use Rattle.cif_inst_model.specs.Flat.{sent_tree};
ghost use Rattle.cif_inst_model.specs.Translation.{net_of};
ghost use Rattle.cif_inst_names.specs.Looking.{AreNamesOf, source_for, component_at};
ghost use Rattle.cif_inst_automata.specs.Edges as edges;

use crate::targets::place;
use crate::used::net_role;
use cif_ast::{Edge, EventUse, Loc, Role};
use cif_base::{Items, Memory};
use cif_inst_names::{Looking, guard, sent, updates, value_places};
use cif_net::{NetEdge, NetExpr};
use cif_scope::number;
use std::alloc::Global;

/// The value that an edge sends in that role, if it sends one.
fn sent_value(
    alloc: Global,
    looking: &Looking<'_, '_>,
    component: u32,
    role: &Role,
) -> Result<Option<NetExpr>, Memory>
    requires names { AreNamesOf looking.now }
    requires component { component < length (components_of (source_for looking.now)) }
    ensures { IfOk result (λ x. option_map view x ≡ option_map (net_of (component_at looking.now component)) (sent_tree (source.role_tree role.now))) }
{
    match sent(alloc, looking, component, role)? {
        Some(value) => Ok(Some(value.into_inner())),
        None => Ok(None),
    }
}

/// Adds the edge for one use of an event.
fn add_use(
    alloc: Global,
    looking: &Looking<'_, '_>,
    component: u32,
    ends: (u32, u32),
    edge: &Edge,
    event_use: &EventUse,
    all: &mut Items<NetEdge>,
) -> Result<(), Memory>
    requires names { AreNamesOf looking.now }
    requires component { component < length (components_of (source_for looking.now)) }
    ensures { OnOk result (map edge_tree all.new
        ≡ map edge_tree all.old ++ edges.use_edge looking.now component ends.0 ends.1 (source.edge_tree edge.now) (source.use_tree event_use.now) ∷ []) }
{
    let guard = guard(
        alloc,
        looking,
        component,
        event_use.name.at,
        edge.guards.as_slice(),
    )?;
    let sent = sent_value(alloc, looking, component, &event_use.role)?;
    let updates = updates(alloc, looking, component, edge.updates.as_slice())?;
    let places = value_places(alloc, event_use, edge)?;
    all.push(NetEdge {
        event: looking.event(component, &event_use.name),
        role: net_role(&event_use.role),
        from: ends.0,
        to: ends.1,
        guard: guard.into_inner(),
        sent,
        updates,
        places,
    })?;
    Ok(())
}

/// Adds an edge for each use of an event on an edge.
fn add_uses(
    alloc: Global,
    looking: &Looking<'_, '_>,
    component: u32,
    ends: (u32, u32),
    edge: &Edge,
    all: &mut Items<NetEdge>,
) -> Result<(), Memory>
    requires names { AreNamesOf looking.now }
    requires component { component < length (components_of (source_for looking.now)) }
    ensures { OnOk result (map edge_tree all.new
        ≡ map edge_tree all.old ++ map (edges.use_edge looking.now component ends.0 ends.1 (source.edge_tree edge.now)) (map source.use_tree edge.now.uses)) }
{
    let uses = edge.uses.as_slice();
    for event_use in uses {
        add_use(alloc, looking, component, ends, edge, event_use, all)?;
    }
    Ok(())
}

/// Adds the edges that leave the location at `places.0`, of an automaton with `places.1` locations.
fn add_edges(
    alloc: Global,
    looking: &Looking<'_, '_>,
    component: u32,
    places: (u32, u32),
    leaving: &[Edge],
    all: &mut Items<NetEdge>,
) -> Result<(), Memory>
    requires names { AreNamesOf looking.now }
    requires component { component < length (components_of (source_for looking.now)) }
    ensures { OnOk result (map edge_tree all.new
        ≡ map edge_tree all.old ++ flat_map (edges.uses_edges looking.now component places.0 places.1) (map source.edge_tree leaving.now)) }
{
    let (from, count) = places;
    for edge in leaving {
        let to = match &edge.target {
            Some(name) => place(looking, component, name, count),
            None => from,
        };
        add_uses(alloc, looking, component, (from, to), edge, all)?;
    }
    Ok(())
}

/// The edges of an automaton, an edge for each use of an event.
pub(crate) fn all_edges(
    alloc: Global,
    looking: &Looking<'_, '_>,
    component: u32,
    locs: &[Loc],
) -> Result<Items<NetEdge>, Memory>
    requires names { AreNamesOf looking.now }
    requires component { component < length (components_of (source_for looking.now)) }
    ensures { IfOk result (λ all. map edge_tree all
        ≡ edges.locations_edges looking.now component (length locs.now) 0 (map source.location_tree locs.now)) }
{
    let count = number(locs.len())?;
    let mut all = Items::new(alloc);
    for (place, loc) in locs.iter().enumerate() {
        let from = number(place)?;
        add_edges(
            alloc,
            looking,
            component,
            (from, count),
            loc.edges.as_slice(),
            &mut all,
        )?;
    }
    Ok(all)
}
