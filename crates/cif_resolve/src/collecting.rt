//! The names that a body writes.

ghost use Rattle.std.specs.Prelude.{◌≡◌, ◌++◌, map, flat_map, option_map, IfOk, OnOk};
ghost use Rattle.cif_ast.specs.View.{view_item, view_items};
ghost use Rattle.cif_source.specs.Source.{instance_tree, param_tree, source_item, source_items};
ghost use Rattle.cif_source.specs.Uses.{param_uses};
ghost use Rattle.cif_scope_uses.specs.Views.{use_of, own_name_of};
ghost use Rattle.cif_scope.specs.Written.{body_of_written, inside_of};
ghost use Rattle.cif_resolve.specs.Bodies as bodies;

use crate::counting::{definition_of, next_instance};
use cif_ast::{Inst, Item, Param};
use cif_base::Memory;
use cif_scope::{Inside, Scopes, Written};
use cif_scope_uses::{
    Asked, OwnName, Use, add_arg_uses, add_automaton_own_names, add_automaton_uses,
    add_decl_own_names, add_decl_uses, add_param_uses,
};
use std::alloc::Global;

fn add_params<'a>(params: &'a [Param], found: &mut Vec<Use<'a>>) -> Result<(), Memory>
    ensures { OnOk result (map use_of found.new.items
        ≡ map use_of found.old.items ++ flat_map param_uses (map param_tree params.now)) }
{
    for param in params {
        add_param_uses(param, found)?;
    }
    Ok(())
}

/// Adds the names of an instance: that of its definition, and those in its arguments.
fn add_instance<'a>(
    inst: &'a Inst,
    definition: Option<Written<'_>>,
    found: &mut Vec<Use<'a>>,
) -> Result<(), Memory>
    ensures { OnOk result (map use_of found.new.items
        ≡ map use_of found.old.items ++ bodies.instance_uses (instance_tree inst.now) (option_map body_of_written definition.entry)) }
{
    found.push(Use {
        name: &inst.def,
        asks: Asked::Definition,
    })?;
    match definition {
        Some(one) => add_arg_uses(inst.args.as_slice(), one.params, found),
        None => add_arg_uses(inst.args.as_slice(), &[], found),
    }
}

/// Adds the names of an item. Where it is an instance, that is its number.
fn add_item<'a>(
    scopes: &Scopes,
    written: &[Written<'_>],
    body: u32,
    instance: u32,
    item: &'a Item,
    found: &mut Vec<Use<'a>>,
) -> Result<(), Memory>
    ensures { OnOk result (map use_of found.new.items ≡ map use_of found.old.items
        ++ bodies.uses_at scopes.now (map body_of_written written.now) body instance (source_item (view_item item.now))) }
{
    match item {
        Item::Decl(decl) => add_decl_uses(decl, found),
        Item::Inst(inst) => {
            let definition = definition_of(scopes, written, body, instance);
            add_instance(inst, definition, found)
        }
        Item::Comp(_) | Item::Def(_) => Ok(()),
    }
}

fn add_items<'a>(
    scopes: &Scopes,
    written: &[Written<'_>],
    body: u32,
    items: &'a [Item],
    found: &mut Vec<Use<'a>>,
) -> Result<(), Memory>
    ensures { OnOk result (map use_of found.new.items ≡ map use_of found.old.items
        ++ bodies.uses_in scopes.now (map body_of_written written.now) body 0 (source_items (view_items items.now))) }
{
    let mut instance = 0;
    for item in items {
        add_item(scopes, written, body, instance, item, found)?;
        instance = next_instance(instance, item)?;
    }
    Ok(())
}

fn add_inside<'a>(
    scopes: &Scopes,
    written: &[Written<'_>],
    body: u32,
    inside: Inside<'a>,
    found: &mut Vec<Use<'a>>,
) -> Result<(), Memory>
    ensures { OnOk result (map use_of found.new.items ≡ map use_of found.old.items
        ++ bodies.uses_under scopes.now (map body_of_written written.now) body (inside_of inside.entry)) }
{
    match inside {
        Inside::Group(items) => add_items(scopes, written, body, items, found),
        Inside::Automaton(automaton) => add_automaton_uses(automaton, found),
    }
}

/// The names that a body writes, each with what its position asks for.
pub fn uses_of<'a>(
    alloc: Global,
    scopes: &Scopes,
    written: &[Written<'_>],
    body: u32,
    one: Written<'a>,
) -> Result<Vec<Use<'a>>, Memory>
    ensures { IfOk result (λ found. map use_of found.items
        ≡ bodies.uses_of scopes.now (map body_of_written written.now) body (body_of_written one.entry)) }
{
    let mut found = Vec::new(alloc);
    add_params(one.params, &mut found)?;
    add_inside(scopes, written, body, one.inside, &mut found)?;
    Ok(found)
}

fn add_own_item<'a>(item: &'a Item, found: &mut Vec<OwnName<'a>>) -> Result<(), Memory>
    ensures { OnOk result (map own_name_of found.new.items
        ≡ map own_name_of found.old.items ++ bodies.own_at (source_item (view_item item.now))) }
{
    match item {
        Item::Decl(decl) => add_decl_own_names(decl, found),
        Item::Inst(_) | Item::Comp(_) | Item::Def(_) => Ok(()),
    }
}

fn add_own_items<'a>(items: &'a [Item], found: &mut Vec<OwnName<'a>>) -> Result<(), Memory>
    ensures { OnOk result (map own_name_of found.new.items
        ≡ map own_name_of found.old.items ++ bodies.own_in (source_items (view_items items.now))) }
{
    for item in items {
        add_own_item(item, found)?;
    }
    Ok(())
}

fn add_own_inside<'a>(inside: Inside<'a>, found: &mut Vec<OwnName<'a>>) -> Result<(), Memory>
    ensures { OnOk result (map own_name_of found.new.items
        ≡ map own_name_of found.old.items ++ bodies.own_under (inside_of inside.entry)) }
{
    match inside {
        Inside::Group(items) => add_own_items(items, found),
        Inside::Automaton(automaton) => add_automaton_own_names(automaton, found),
    }
}

/// The names of a body that are looked up in its own scope alone.
pub fn own_names_of<'a>(alloc: Global, inside: Inside<'a>) -> Result<Vec<OwnName<'a>>, Memory>
    ensures { IfOk result (λ found. map own_name_of found.items ≡ bodies.own_under (inside_of inside.entry)) }
{
    let mut found = Vec::new(alloc);
    add_own_inside(inside, &mut found)?;
    Ok(found)
}
