//! The lines that a run writes.

ghost use Rattle.std.specs.Prelude.{◌≡◌, ◌++◌, map, nat_eq, slice_get, OnOk};
ghost use Rattle.std.specs.List.{zip};
ghost use Rattle.std.specs.Ordering.{int_eq};
ghost use Rattle.cif_sim_model.specs.Texts as texts;
ghost use Rattle.cif_sim_names.specs.Nets.{auto_names, names_of_net, stored_names};
ghost use Rattle.cif_net.specs.Parts.{auto_tree, var_tree};
ghost use Rattle.cif_net.specs.View.{net_tree, state_tree};
ghost use Rattle.cif_net.specs.declared.automata.Auto.{Auto};
ghost use Rattle.cif_net.specs.declared.data.Var.{Var};
ghost use Rattle.cif_script.specs.Changes.{change_at, change_of};
ghost use Rattle.cif_script.specs.Touches.{Ascend, DifferWithin, SameBut};
ghost use Rattle.cif_script.specs.Views.{autos_named, vars_named};

use crate::telling::{put_place, put_value};
use crate::touched::Touched;
use cif_base::{Memory, put_int};
use cif_net::{Auto, Net, State, Var};

/// Appends the start line: the location of each automaton and the value of each variable.
pub fn put_start(into: &mut Vec<u8>, net: &Net, state: &State) -> Result<(), Memory>
    ensures { OnOk result (into.new.items ≡ into.old.items ++ texts.start_line (names_of_net (net_tree net.now)) (state_tree state.now)) }
{
    into.extend_from_slice(b"start")?;
    put_places(into, net.autos.as_slice(), state.locs.as_slice())?;
    put_values(into, net.vars.as_slice(), state.vals.as_slice())?;
    into.push(b'\n')?;
    Ok(())
}

/// Appends the line of an input that is set to a value.
pub fn put_set(into: &mut Vec<u8>, net: &Net, input: u32, value: i64) -> Result<(), Memory>
    ensures { OnOk result (into.new.items ≡ into.old.items ++ texts.set_line (names_of_net (net_tree net.now)) input value) }
{
    into.extend_from_slice(b"set ")?;
    put_input(into, net, input, value)?;
    into.push(b'\n')?;
    Ok(())
}

/// Appends the line of step `number`, counted from 1: the event, and each location and value that it changed, which are among those
/// that it may change. It looks at these alone.
pub fn put_step(
    into: &mut Vec<u8>,
    net: &Net,
    number: u32,
    event: u32,
    touched: &Touched,
    before: &State,
    after: &State,
) -> Result<(), Memory>
    requires { DifferWithin touched.now (state_tree before.now) (state_tree after.now) }
    ensures { OnOk result (into.new.items ≡ into.old.items
        ++ texts.step_line (names_of_net (net_tree net.now)) number event (state_tree before.now) (state_tree after.now)) }
{
    into.extend_from_slice(b"step ")?;
    put_int(into, number as i64)?;
    into.push(b' ')?;
    put_event(into, net, event)?;
    put_new_places(
        into,
        net.autos.as_slice(),
        touched.autos.as_slice(),
        before.locs.as_slice(),
        after.locs.as_slice(),
    )?;
    put_new_values(
        into,
        net.vars.as_slice(),
        touched.vars.as_slice(),
        before.vals.as_slice(),
        after.vals.as_slice(),
    )?;
    into.push(b'\n')?;
    Ok(())
}

/// Appends the path and value of an input, if it exists.
fn put_input(into: &mut Vec<u8>, net: &Net, input: u32, value: i64) -> Result<(), Memory>
    ensures { OnOk result (into.new.items ≡ into.old.items ++ texts.input_told (names_of_net (net_tree net.now)) input value) }
{
    if let Some(input) = net.inputs.get(input as usize) {
        let literals = input.literals.as_slice();
        return put_value(into, &input.path, input.ty, literals, value);
    }
    Ok(())
}

/// Appends the path of an event, if it exists.
fn put_event(into: &mut Vec<u8>, net: &Net, event: u32) -> Result<(), Memory>
    ensures { OnOk result (into.new.items ≡ into.old.items ++ texts.event_path (names_of_net (net_tree net.now)) event) }
{
    if let Some(event) = net.events.get(event as usize) {
        into.extend_from_slice(event.path.as_slice())?;
    }
    Ok(())
}

/// Appends the location of each automaton.
fn put_places(into: &mut Vec<u8>, autos: &[Auto], places: &[u32]) -> Result<(), Memory>
    ensures { OnOk result (into.new.items ≡ into.old.items ++ texts.listed (map texts.place_told (zip (autos_named autos.now) places.now))) }
{
    for (auto, place) in autos.iter().zip(places) {
        into.push(b' ')?;
        put_place(into, auto, *place)?;
    }
    Ok(())
}

/// Appends the value of each variable.
fn put_values(into: &mut Vec<u8>, vars: &[Var], values: &[i64]) -> Result<(), Memory>
    ensures { OnOk result (into.new.items ≡ into.old.items ++ texts.listed (map texts.value_told (zip (vars_named vars.now) values.now))) }
{
    for (var, value) in vars.iter().zip(values) {
        into.push(b' ')?;
        put_value(into, &var.path, var.ty, var.literals.as_slice(), *value)?;
    }
    Ok(())
}

/// Appends the location of each of these automata whose location changed; that of no other one did.
fn put_new_places(
    into: &mut Vec<u8>,
    autos: &[Auto],
    numbers: &[u32],
    before: &[u32],
    after: &[u32],
) -> Result<(), Memory>
    requires ascend { Ascend 0 numbers.now }
    requires others { SameBut numbers.now before.now after.now }
    ensures { OnOk result (into.new.items ≡ into.old.items ++ texts.listed (map texts.place_told (texts.changed nat_eq (autos_named autos.now) before.now after.now))) }
{
    for number in numbers {
        put_place_at(into, autos, *number as usize, before, after)?;
    }
    Ok(())
}

/// Appends the location of the automaton with this number, if it changed.
fn put_place_at(
    into: &mut Vec<u8>,
    autos: &[Auto],
    at: usize,
    before: &[u32],
    after: &[u32],
) -> Result<(), Memory>
    ensures { OnOk result (into.new.items ≡ into.old.items ++ change_at nat_eq texts.place_told (autos_named autos.now) before.now after.now at) }
{
    if let Some(auto) = autos.get(at) {
        let old = item_at(before, at);
        let new = item_at(after, at);
        put_new_place(into, auto, old, new)?;
    }
    Ok(())
}

/// Appends the location of an automaton if it changed.
fn put_new_place(
    into: &mut Vec<u8>,
    auto: &Auto,
    before: Option<u32>,
    after: Option<u32>,
) -> Result<(), Memory>
    ensures { OnOk result (into.new.items ≡ into.old.items
        ++ change_of nat_eq texts.place_told (auto_names (auto_tree auto.now)) before after) }
{
    if let (Some(old), Some(new)) = (before, after)
        && old != new
    {
        into.push(b' ')?;
        put_place(into, auto, new)?;
    }
    Ok(())
}

/// Appends the value of each of these variables whose value changed; that of no other one did.
fn put_new_values(
    into: &mut Vec<u8>,
    vars: &[Var],
    numbers: &[u32],
    before: &[i64],
    after: &[i64],
) -> Result<(), Memory>
    requires ascend { Ascend 0 numbers.now }
    requires others { SameBut numbers.now before.now after.now }
    ensures { OnOk result (into.new.items ≡ into.old.items ++ texts.listed (map texts.value_told (texts.changed int_eq (vars_named vars.now) before.now after.now))) }
{
    for number in numbers {
        put_value_at(into, vars, *number as usize, before, after)?;
    }
    Ok(())
}

/// Appends the value of the variable with this number, if it changed.
fn put_value_at(
    into: &mut Vec<u8>,
    vars: &[Var],
    at: usize,
    before: &[i64],
    after: &[i64],
) -> Result<(), Memory>
    ensures { OnOk result (into.new.items ≡ into.old.items ++ change_at int_eq texts.value_told (vars_named vars.now) before.now after.now at) }
{
    if let Some(var) = vars.get(at) {
        let old = item_at(before, at);
        let new = item_at(after, at);
        put_new_value(into, var, old, new)?;
    }
    Ok(())
}

/// Appends the value of a variable if it changed.
fn put_new_value(
    into: &mut Vec<u8>,
    var: &Var,
    before: Option<i64>,
    after: Option<i64>,
) -> Result<(), Memory>
    ensures { OnOk result (into.new.items ≡ into.old.items
        ++ change_of int_eq texts.value_told (stored_names (var_tree var.now)) before after) }
{
    if let (Some(old), Some(new)) = (before, after)
        && old != new
    {
        into.push(b' ')?;
        put_value(into, &var.path, var.ty, var.literals.as_slice(), new)?;
    }
    Ok(())
}

/// The item with this number, if there is one.
fn item_at<T: Copy>(items: &[T], at: usize) -> Option<T>
    ensures { result ≡ slice_get items.now at }
{
    items.get(at).copied()
}
