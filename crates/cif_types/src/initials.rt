//! Automata with another number of initial locations than one.

ghost use Rattle.std.specs.Prelude.{◌≡◌, map, filter, length};
ghost use Rattle.cif_ast.specs.View.{view_body, view_item, view_items};
ghost use Rattle.cif_source.specs.Source.{LocationTree, location_tree, automaton_tree, source_body, source_item, source_items};
ghost use Rattle.cif_types.specs.Initials.{Tells, automaton_initials, body_initials, item_initials, initials_in};

use crate::error::TypeErr;
use cif_ast::{AutoBody, Body, Ident, Item, Loc};

fn initial_count(locs: &[Loc]) -> usize
    ensures { result ≡ length (filter (λ (l : LocationTree). l.initial) (map location_tree locs.now)) }
{
    let mut count = 0;
    for loc in locs {
        if loc.initial {
            count += 1;
        }
    }
    count
}

fn check_automaton(name: &Ident, body: &AutoBody) -> Result<(), TypeErr>
    ensures { Tells result (automaton_initials name.now (automaton_tree body.now)) }
{
    let count = initial_count(body.locs.as_slice());
    if count == 1 {
        Ok(())
    } else if count < 4_294_967_296 {
        Err(TypeErr::Initials {
            at: name.at,
            count: count as u32,
        })
    } else {
        Err(TypeErr::Memory)
    }
}

#[cycle(initials)]
fn check_body(body: &Body, name: &Ident) -> Result<(), TypeErr>
    ensures { Tells result (body_initials name.now (source_body (view_body body.now))) }
{
    match body {
        Body::Group(items) => check_items(items.as_slice()),
        Body::Auto(automaton) => check_automaton(name, automaton),
    }
}

#[cycle(initials)]
fn check_item(item: &Item) -> Result<(), TypeErr>
    ensures { Tells result (item_initials (source_item (view_item item.now))) }
{
    match item {
        Item::Decl(_) | Item::Inst(_) => Ok(()),
        Item::Comp(component) => check_body(&component.body, &component.name),
        Item::Def(definition) => check_body(&definition.body, &definition.name),
    }
}

/// Finds the first automaton in these items, in text order, that has another number of initial locations than one.
#[cycle(initials)]
pub fn check_items(items: &[Item]) -> Result<(), TypeErr>
    ensures { Tells result (initials_in (source_items (view_items items.now))) }
{
    for item in items {
        check_item(item)?;
    }
    Ok(())
}
