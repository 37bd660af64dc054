//! The instances of a body.

ghost use Rattle.std.specs.Prelude.{◌≡◌, ◌++◌, map, option_map, IfOk, OnOk};
ghost use Rattle.cif_ast.specs.View.{view_item, view_items};
ghost use Rattle.cif_source.specs.Source.{group_body, source_item, source_items};
ghost use Rattle.cif_scope.specs.Written.{body_of_written, inside_of};
ghost use Rattle.cif_inst_parameters.specs.Passing as passing;

use cif_ast::{Inst, Item};
use cif_base::Memory;
use cif_scope::{Inside, Written};
use std::alloc::Global;

/// Adds an item that is an instance.
fn add_instance<'a>(item: &'a Item, found: &mut Vec<&'a Inst>) -> Result<(), Memory>
    ensures { OnOk result (map passing.instance_now found.new.items
        ≡ map passing.instance_now found.old.items ++ passing.item_instances (source_item (view_item item.now))) }
{
    match item {
        Item::Inst(instance) => Ok(found.push(instance)?),
        Item::Decl(_) | Item::Comp(_) | Item::Def(_) => Ok(()),
    }
}

fn instances_of_items<'a>(alloc: Global, items: &'a [Item]) -> Result<Vec<&'a Inst>, Memory>
    ensures { IfOk result (λ found. map passing.instance_now found.items
        ≡ passing.instances_inside (group_body (source_items (view_items items.now)))) }
{
    let mut found = Vec::new(alloc);
    for item in items {
        add_instance(item, &mut found)?;
    }
    Ok(found)
}

fn instances_inside<'a>(alloc: Global, inside: Inside<'a>) -> Result<Vec<&'a Inst>, Memory>
    ensures { IfOk result (λ found. map passing.instance_now found.items ≡ passing.instances_inside (inside_of inside.entry)) }
{
    match inside {
        Inside::Group(items) => instances_of_items(alloc, items),
        Inside::Automaton(_) => Ok(Vec::new(alloc)),
    }
}

/// The instances of each body, in text order.
pub fn all_instances<'a>(
    alloc: Global,
    written: &[Written<'a>],
) -> Result<Vec<Vec<&'a Inst>>, Memory>
    ensures { IfOk result (λ all. map passing.instances_now all.items ≡ map passing.body_instances (map body_of_written written.now)) }
{
    let mut all = Vec::new(alloc);
    for one in written {
        all.push(instances_inside(alloc, one.inside)?)?;
    }
    Ok(all)
}

/// An instance by its number in a body.
pub fn instance_at<'a>(all: &[Vec<&'a Inst>], body: u32, instance: u32) -> Option<&'a Inst>
    ensures { option_map passing.instance_now result ≡ passing.instance_at (map passing.instances_now all.now) body instance }
{
    let of_body = all.get(body as usize)?;
    let found = of_body.get(instance as usize)?;
    Some(*found)
}
