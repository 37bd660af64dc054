//! The outer components: a component that is written where it stands is in that one, and an instance in the component in which its
//! definition is found.

ghost use Rattle.std.specs.Prelude.{◌≡◌, ◌++◌, map, option_map, IfOk, OnOk};
ghost use Rattle.cif_ast.specs.View.{view_item, view_items};
ghost use Rattle.cif_source.specs.Source.{group_body, source_item, source_items};
ghost use Rattle.cif_scope.specs.Written.{body_of_written, inside_of};
ghost use Rattle.cif_inst_components.specs.Finding as finding;
ghost use Rattle.cif_inst_components.specs.Outers as outers;

use crate::children::Children;
use crate::components::{Component, Place};
use crate::finding::Finder;
use cif_ast::{Inst, Item, Name};
use cif_base::{Items, Memory};
use cif_scope::{Inside, Scopes, What, Written};
use std::alloc::Global;

/// Adds the name of the definition of an instance.
fn add_name<'a>(item: &'a Item, names: &mut Vec<&'a Name>) -> Result<(), Memory>
    ensures { OnOk result (map outers.name_now names.new.items
        ≡ map outers.name_now names.old.items ++ outers.item_names (source_item (view_item item.now))) }
{
    match item {
        Item::Inst(Inst { def, .. }) => Ok(names.push(def)?),
        Item::Decl(_) | Item::Comp(_) | Item::Def(_) => Ok(()),
    }
}

fn names_of_items<'a>(alloc: Global, items: &'a [Item]) -> Result<Vec<&'a Name>, Memory>
    ensures { IfOk result (λ names. map outers.name_now names.items
        ≡ outers.names_inside (group_body (source_items (view_items items.now)))) }
{
    let mut names = Vec::new(alloc);
    for item in items {
        add_name(item, &mut names)?;
    }
    Ok(names)
}

/// The names of the definitions of a body's instances.
fn definition_names<'a>(alloc: Global, inside: Inside<'a>) -> Result<Vec<&'a Name>, Memory>
    ensures { IfOk result (λ names. map outers.name_now names.items ≡ outers.names_inside (inside_of inside.entry)) }
{
    match inside {
        Inside::Group(items) => names_of_items(alloc, items),
        Inside::Automaton(_) => Ok(Vec::new(alloc)),
    }
}

/// Those of each body.
fn all_definition_names<'a>(
    alloc: Global,
    written: &[Written<'a>],
) -> Result<Vec<Vec<&'a Name>>, Memory>
    ensures { IfOk result (λ all. map outers.names_now all.items ≡ map outers.definition_names (map body_of_written written.now)) }
{
    let mut all = Vec::new(alloc);
    for one in written {
        all.push(definition_names(alloc, one.inside)?)?;
    }
    Ok(all)
}

fn definition_name<'a>(names: &[Vec<&'a Name>], body: u32, instance: u32) -> Option<&'a Name>
    ensures { option_map outers.name_now result ≡ outers.definition_name (map outers.names_now names.now) body instance }
{
    let of_body = names.get(body as usize)?;
    let name = of_body.get(instance as usize)?;
    Some(*name)
}

/// The outer component of what stands at a place.
fn outer_at(finder: &Finder, names: &[Vec<&Name>], stands: Place) -> Option<u32>
    ensures { result ≡ outers.outer_at_place (finding.finder finder.now) (map outers.names_now names.now) stands }
{
    let one = finder.all.get(stands.component as usize)?;
    match finder.scopes.what(one.body, stands.slot)? {
        What::Instance(instance) => {
            let name = definition_name(names, one.body, instance)?;
            let found = finder.find(false, stands.component, name)?;
            Some(found.component)
        }
        _ => Some(stands.component),
    }
}

/// The outer component of each.
pub fn all_outers(
    alloc: Global,
    scopes: &Scopes,
    written: &[Written],
    all: &[Component],
    children: &Children,
) -> Result<Items<Option<u32>>, Memory>
    ensures { IfOk result (λ found. found ≡ outers.all_outers scopes.now (map outers.definition_names (map body_of_written written.now)) all.now children.now) }
{
    let names = all_definition_names(alloc, written)?;
    let mut outers = Items::new(alloc);
    for component in all {
        let finder = Finder {
            scopes,
            all,
            outers: outers.as_slice(),
            children,
        };
        let outer = match component.stands {
            Some(stands) => outer_at(&finder, names.as_slice(), stands),
            None => None,
        };
        outers.push(outer)?;
    }
    Ok(outers)
}
