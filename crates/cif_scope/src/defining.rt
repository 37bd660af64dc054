//! The definitions of instances.

ghost use Rattle.std.specs.Prelude.{◌≡◌, ◌++◌, map, IfOk, OnOk};
ghost use Rattle.cif_ast.specs.View.{view_item, view_items};
ghost use Rattle.cif_source.specs.Source.{group_body, instance_tree, source_item, source_items};
ghost use Rattle.cif_scope.specs.Written as bodies;

use crate::drafting::number;
use crate::looked::Looked;
use crate::scope::What;
use crate::table::Table;
use crate::written::{Inside, Written};
use cif_ast::{Inst, Item};
use cif_base::{Items, Memory};
use std::alloc::Global;

impl Table {
    /// The body of the definition that an instance in a body names.
    fn definition(&self, body: u32, inst: &Inst) -> Option<u32>
        ensures { result ≡ bodies.definition_by self.now body (instance_tree inst.now) }
    {
        let Looked::At(found, slot) = self.look(&[], false, body, &inst.def) else {
            return None;
        };
        match self.what(found, slot) {
            Some(What::Definition(definition, _)) => Some(definition),
            _ => None,
        }
    }
}

/// Adds the definition of an instance.
fn add_definition(
    table: &Table,
    body: u32,
    item: &Item,
    all: &mut Items<Option<u32>>,
) -> Result<(), Memory>
    ensures { OnOk result (all.new ≡ all.old ++ bodies.item_definitions table.now body (source_item (view_item item.now))) }
{
    match item {
        Item::Inst(inst) => all.push(table.definition(body, inst)),
        Item::Decl(_) | Item::Comp(_) | Item::Def(_) => Ok(()),
    }
}

fn definitions_in(
    alloc: Global,
    table: &Table,
    body: u32,
    items: &[Item],
) -> Result<Items<Option<u32>>, Memory>
    ensures { IfOk result (λ all. all ≡ bodies.definitions_in table.now body (group_body (source_items (view_items items.now)))) }
{
    let mut all = Items::new(alloc);
    for item in items {
        add_definition(table, body, item, &mut all)?;
    }
    Ok(all)
}

fn definitions_of(
    alloc: Global,
    table: &Table,
    body: u32,
    inside: Inside<'_>,
) -> Result<Items<Option<u32>>, Memory>
    ensures { IfOk result (λ all. all ≡ bodies.definitions_in table.now body (bodies.inside_of inside.entry)) }
{
    match inside {
        Inside::Group(items) => definitions_in(alloc, table, body, items),
        Inside::Automaton(_) => Ok(Items::new(alloc)),
    }
}

/// For each body the definitions of its instances.
pub fn definitions(
    alloc: Global,
    table: &Table,
    written: &[Written<'_>],
) -> Result<Items<Items<Option<u32>>>, Memory>
    ensures { IfOk result (λ all. all ≡ bodies.definitions_from table.now 0 (map bodies.body_of_written written.now)) }
{
    let mut all = Items::new(alloc);
    for (body, one) in written.iter().enumerate() {
        all.push(definitions_of(alloc, table, number(body)?, one.inside)?)?;
    }
    Ok(all)
}
