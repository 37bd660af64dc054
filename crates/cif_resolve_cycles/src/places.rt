//! Where the names of definitions stand.

ghost use Rattle.std.specs.Prelude.{◌≡◌, ◌++◌, length, IfOk, OnOk};
ghost use Rattle.cif_ast.specs.View.{view_item, view_items, view_body};
ghost use Rattle.cif_source.specs.Source.{source_item, source_items, source_body, source_of};
ghost use Rattle.cif_resolve_cycles.specs.Bodies as graph;

use cif_ast::{Body, Item, Spec};
use cif_base::{Items, Memory};
use cif_scope::Scopes;
use std::alloc::Global;

#[cycle(places)]
fn add_items(items: &[Item], places: &mut Items<Option<u32>>) -> Result<(), Memory>
    ensures { OnOk result (places.new ≡ places.old ++ graph.places_in (source_items (view_items items.now))) }
{
    for item in items {
        add_item(item, places)?;
    }
    Ok(())
}

#[cycle(places)]
fn add_item(item: &Item, places: &mut Items<Option<u32>>) -> Result<(), Memory>
    ensures { OnOk result (places.new ≡ places.old ++ graph.places_at (source_item (view_item item.now))) }
{
    match item {
        Item::Decl(_) | Item::Inst(_) => Ok(()),
        Item::Comp(comp) => {
            places.push(None)?;
            add_body(&comp.body, places)
        }
        Item::Def(def) => {
            places.push(Some(def.name.at))?;
            add_body(&def.body, places)
        }
    }
}

#[cycle(places)]
fn add_body(body: &Body, places: &mut Items<Option<u32>>) -> Result<(), Memory>
    ensures { OnOk result (places.new ≡ places.old ++ graph.places_under (source_body (view_body body.now))) }
{
    match body {
        Body::Group(items) => add_items(items.as_slice(), places),
        Body::Auto(_) => Ok(()),
    }
}

/// For each body where the name of its definition stands, which the specification and components don't have.
pub fn definition_places(alloc: Global, spec: &Spec) -> Result<Items<Option<u32>>, Memory>
    ensures { IfOk result (λ places. places ≡ graph.definition_places (source_of spec.now)) }
{
    let mut places = Items::only(alloc, None)?;
    add_items(spec.items.as_slice(), &mut places)?;
    Ok(places)
}

fn place_at(places: &[Option<u32>], body: u32) -> Option<u32>
    ensures { result ≡ graph.place_at places.now body }
{
    *places.get(body as usize)?
}

/// Where the name of the nearest definition stands, of those whose bodies have the body in them or are it.
pub fn nearest(scopes: &Scopes, places: &[Option<u32>], body: u32) -> Option<u32>
    ensures { result ≡ graph.nearest scopes.now.table places.now (length scopes.now.table.scopes) body }
{
    let mut at = body;
    for _turn in 0..scopes.bodies() {
        if let Some(place) = place_at(places, at) {
            return Some(place);
        }
        at = scopes.outer(at)?;
    }
    None
}
