//! The values of edges by place and path.

ghost use Rattle.std.specs.Prelude.{◌≡◌, ◌++◌, decimal, OnOk, Some};
ghost use Rattle.cif_why_model.specs.Lines.{leaves_told, value_at};
ghost use Rattle.cif_sim_names.specs.Nets.{event_path_in, told_of_net, variable_path_in};
ghost use Rattle.cif_net.specs.Parts.{auto_tree, edge_tree};
ghost use Rattle.cif_net.specs.View.{net_tree};
ghost use Rattle.cif_why_lines.specs.Targets.{target_path, value_of_auto, value_of_edge, value_with};

use crate::targets::{Target, target_of};
use cif_base::{Memory, put_int};
use cif_net::{Auto, Net, NetEdge};

/// Appends `leaves`, the place and the path of a value of an edge, if it exists.
pub(crate) fn put_leaves(
    into: &mut Vec<u8>,
    net: &Net,
    auto: u32,
    edge: u32,
    number: u32,
) -> Result<(), Memory>
    ensures { OnOk result (into.new.items ≡ into.old.items ++ leaves_told (value_at (told_of_net (net_tree net.now)) auto edge number)) }
{
    if let Some(auto) = net.autos.get(auto as usize) {
        put_leaves_of_auto(into, net, auto, edge, number)?;
    }
    Ok(())
}

fn put_leaves_of_auto(
    into: &mut Vec<u8>,
    net: &Net,
    auto: &Auto,
    edge: u32,
    number: u32,
) -> Result<(), Memory>
    ensures { OnOk result (into.new.items ≡ into.old.items ++ leaves_told (value_of_auto (net_tree net.now) (auto_tree auto.now) edge number)) }
{
    if let Some(edge) = auto.edges.get(edge as usize) {
        put_leaves_of_edge(into, net, edge, number)?;
    }
    Ok(())
}

fn put_leaves_of_edge(
    into: &mut Vec<u8>,
    net: &Net,
    edge: &NetEdge,
    number: u32,
) -> Result<(), Memory>
    ensures { OnOk result (into.new.items ≡ into.old.items ++ leaves_told (value_of_edge (net_tree net.now) (edge_tree edge.now) number)) }
{
    let place = edge.places.get(number as usize).copied();
    let target = target_of(edge, number);
    put_leaves_of_value(into, net, place, target)?;
    Ok(())
}

fn put_leaves_of_value(
    into: &mut Vec<u8>,
    net: &Net,
    place: Option<u32>,
    target: Option<Target>,
) -> Result<(), Memory>
    ensures { OnOk result (into.new.items ≡ into.old.items ++ leaves_told (value_with (net_tree net.now) place target)) }
{
    if let (Some(place), Some(target)) = (place, target) {
        put_value(into, net, place, target)?;
    }
    Ok(())
}

/// Appends `leaves`, a place and the path of a target.
fn put_value(into: &mut Vec<u8>, net: &Net, place: u32, target: Target) -> Result<(), Memory>
    ensures { OnOk result (into.new.items ≡ into.old.items ++ leaves_told (value_with (net_tree net.now) (Some place) (Some target))) }
{
    into.extend_from_slice(b"leaves ")?;
    put_place(into, place)?;
    into.push(b' ')?;
    put_target(into, net, target)?;
    Ok(())
}

/// Appends a place of the source.
pub(crate) fn put_place(into: &mut Vec<u8>, place: u32) -> Result<(), Memory>
    ensures { OnOk result (into.new.items ≡ into.old.items ++ decimal place) }
{
    put_int(into, place as i64)
}

/// Appends the path of a target.
fn put_target(into: &mut Vec<u8>, net: &Net, target: Target) -> Result<(), Memory>
    ensures { OnOk result (into.new.items ≡ into.old.items ++ target_path (net_tree net.now) target) }
{
    match target {
        Target::Event(event) => put_event(into, net, event),
        Target::Variable(variable) => put_variable(into, net, variable),
    }
}

/// Appends the path of an event, if it exists.
fn put_event(into: &mut Vec<u8>, net: &Net, event: u32) -> Result<(), Memory>
    ensures { OnOk result (into.new.items ≡ into.old.items ++ event_path_in (net_tree net.now) event) }
{
    if let Some(event) = net.events.get(event as usize) {
        into.extend_from_slice(event.path.as_slice())?;
    }
    Ok(())
}

/// Appends the path of a variable, if it exists.
fn put_variable(into: &mut Vec<u8>, net: &Net, variable: u32) -> Result<(), Memory>
    ensures { OnOk result (into.new.items ≡ into.old.items ++ variable_path_in (net_tree net.now) variable) }
{
    if let Some(variable) = net.vars.get(variable as usize) {
        into.extend_from_slice(variable.path.as_slice())?;
    }
    Ok(())
}
