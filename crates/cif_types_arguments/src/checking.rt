//! Checking the arguments of the instances of a body.

ghost use Rattle.std.specs.Prelude.{◌≡◌, map, IfOk};
ghost use Rattle.cif_ast.specs.View.{view, view_item, view_items};
ghost use Rattle.cif_source.specs.Source.{instance_tree, source_item, source_items};
ghost use Rattle.cif_scope.specs.Drafts.{next_instance};
ghost use Rattle.cif_scope.specs.Written.{body_of_written, inside_of};
ghost use Rattle.cif_types_kinds.specs.Readings.{IsReading, IsWrittenIn, component_in};
ghost use Rattle.cif_types_kinds.specs.Faults.{Tells};
ghost use Rattle.cif_types_arguments.specs.Arguments as arguments;

use crate::classes::params_at;
use crate::fitting::fits;
use cif_ast::{Expr, Inst, Item};
use cif_scope::{Inside, Written, number};
use cif_types_kinds::{KindErr, Reading};
use std::alloc::Global;

/// Checks an argument for the parameter in a slot of a definition, by the number of its body.
fn check_argument(
    alloc: Global,
    reading: &Reading<'_>,
    all: &[Written<'_>],
    definition: u32,
    slot: u32,
    value: &Expr,
) -> Result<(), KindErr>
    requires reading { IsReading reading.now }
    requires all { arguments.AreWrittenIn reading.now all.now }
    ensures { Tells result (arguments.argument_told reading.now.table.now all.now (component_in reading.now) definition slot (view value.now)) }
{
    let Some(param) = params_at(all, definition).get(slot as usize) else {
        return Ok(());
    };
    let channel = reading.table.channel(definition, slot);
    if fits(alloc, reading, all, channel, param, value)? {
        Ok(())
    } else {
        Err(KindErr::Mismatch { at: value.at })
    }
}

/// Checks the arguments of an instance of a definition, by the number of its body.
fn check_passed(
    alloc: Global,
    reading: &Reading<'_>,
    all: &[Written<'_>],
    definition: u32,
    values: &[Expr],
) -> Result<(), KindErr>
    requires reading { IsReading reading.now }
    requires all { arguments.AreWrittenIn reading.now all.now }
    ensures { Tells result (arguments.arguments_told reading.now.table.now all.now (component_in reading.now) definition 0 (map view values.now)) }
{
    for (place, value) in values.iter().enumerate() {
        check_argument(alloc, reading, all, definition, number(place)?, value)?;
    }
    Ok(())
}

fn check_instance(
    alloc: Global,
    reading: &Reading<'_>,
    all: &[Written<'_>],
    definition: Option<u32>,
    instance: &Inst,
) -> Result<(), KindErr>
    requires reading { IsReading reading.now }
    requires all { arguments.AreWrittenIn reading.now all.now }
    ensures { Tells result (arguments.instance_told reading.now.table.now all.now (component_in reading.now) definition (instance_tree instance.now)) }
{
    match definition {
        Some(definition) => check_passed(alloc, reading, all, definition, instance.args.as_slice()),
        None => Ok(()),
    }
}

/// Checks the arguments of an item that is an instance: the number of the next instance.
fn check_item(
    alloc: Global,
    reading: &Reading<'_>,
    all: &[Written<'_>],
    count: u32,
    item: &Item,
) -> Result<u32, KindErr>
    requires reading { IsReading reading.now }
    requires all { arguments.AreWrittenIn reading.now all.now }
    ensures next { IfOk result (λ k. k ≡ next_instance count (source_item (view_item item.now))) }
    ensures told { Tells result (arguments.item_told reading.now.table.now all.now (component_in reading.now)
        reading.now.scopes.now reading.now.body count (source_item (view_item item.now))) }
{
    match item {
        Item::Inst(instance) => {
            let definition = reading.scopes.definition(reading.body, count);
            check_instance(alloc, reading, all, definition, instance)?;
            Ok(number(count as usize + 1)?)
        }
        Item::Decl(_) | Item::Comp(_) | Item::Def(_) => Ok(count),
    }
}

fn check_items(
    alloc: Global,
    reading: &Reading<'_>,
    all: &[Written<'_>],
    items: &[Item],
) -> Result<(), KindErr>
    requires reading { IsReading reading.now }
    requires all { arguments.AreWrittenIn reading.now all.now }
    ensures { Tells result (arguments.items_told reading.now.table.now all.now (component_in reading.now)
        reading.now.scopes.now reading.now.body 0 (source_items (view_items items.now))) }
{
    let mut count = 0;
    for item in items {
        count = check_item(alloc, reading, all, count, item)?;
    }
    Ok(())
}

fn check_inside(
    alloc: Global,
    reading: &Reading<'_>,
    all: &[Written<'_>],
    inside: Inside<'_>,
) -> Result<(), KindErr>
    requires reading { IsReading reading.now }
    requires all { arguments.AreWrittenIn reading.now all.now }
    ensures { Tells result (arguments.inside_told reading.now.table.now all.now (component_in reading.now)
        reading.now.scopes.now reading.now.body (inside_of inside.entry)) }
{
    match inside {
        Inside::Group(items) => check_items(alloc, reading, all, items),
        Inside::Automaton(_) => Ok(()),
    }
}

/// Checks that the arguments of the instances in the body fit their parameters: one for an event parameter is a bare name whose
/// event has the channel and the class that the parameter asks for, one for a location parameter a bare name. `all` has the
/// bodies of the source as written, and `one` is the body that is read. The error tells the first argument that does not fit.
pub fn check_arguments(
    alloc: Global,
    reading: &Reading<'_>,
    all: &[Written<'_>],
    one: Written<'_>,
) -> Result<(), KindErr>
    requires reading { IsReading reading.now }
    requires all { arguments.AreWrittenIn reading.now all.now }
    requires written { IsWrittenIn reading.now (body_of_written one) }
    ensures { arguments.ChecksArguments (component_in reading.now) result }
{
    check_inside(alloc, reading, all, one.inside)
}
