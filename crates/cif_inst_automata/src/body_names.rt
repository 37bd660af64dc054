//! Where the names of components and definitions stand, by the numbers of their bodies.

ghost use Rattle.std.specs.Prelude.{◌≡◌, ◌++◌, ◌∷◌, IfOk, OnOk};
ghost use Rattle.cif_ast.specs.View.{view_item, view_items, view_body};
ghost use Rattle.cif_source.specs.Source.{source_item, source_items, source_body, source_of};
ghost use Rattle.cif_inst_automata.specs.BodyNames as named;

use cif_ast::{Body, Ident, Item, Spec};
use cif_base::{Items, Memory};
use std::alloc::Global;

#[cycle(named)]
fn add_items(items: &[Item], places: &mut Items<u32>) -> Result<(), Memory>
    ensures { OnOk result (places.new ≡ places.old ++ named.places_in (source_items (view_items items.now))) }
{
    for item in items {
        add_item(item, places)?;
    }
    Ok(())
}

#[cycle(named)]
fn add_item(item: &Item, places: &mut Items<u32>) -> Result<(), Memory>
    ensures { OnOk result (places.new ≡ places.old ++ named.places_at (source_item (view_item item.now))) }
{
    match item {
        Item::Decl(_) | Item::Inst(_) => Ok(()),
        Item::Comp(component) => add_body(&component.body, &component.name, places),
        Item::Def(definition) => add_body(&definition.body, &definition.name, places),
    }
}

/// Adds the place of the name of a body, and those of the bodies in it.
#[cycle(named)]
fn add_body(body: &Body, name: &Ident, places: &mut Items<u32>) -> Result<(), Memory>
    ensures { OnOk result (places.new ≡ places.old ++ name.now.at ∷ named.places_under (source_body (view_body body.now))) }
{
    places.push(name.at)?;
    match body {
        Body::Group(items) => add_items(items.as_slice(), places),
        Body::Auto(_) => Ok(()),
    }
}

/// For each body of a source, in text order, where its name stands; 0 for the specification, which has none.
pub(crate) fn name_places(alloc: Global, spec: &Spec) -> Result<Items<u32>, Memory>
    ensures { IfOk result (λ all. all ≡ named.all_places (source_of spec.now)) }
{
    let mut places = Items::new(alloc);
    places.push(0)?;
    add_items(spec.items.as_slice(), &mut places)?;
    Ok(places)
}
