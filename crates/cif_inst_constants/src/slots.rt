//! The declarations at the names of bodies.

ghost use Rattle.std.specs.Prelude.{◌≡◌, ◌++◌, map, flat_map, IfOk, OnOk};
ghost use Rattle.cif_ast.specs.View.{view_item, view_items};
ghost use Rattle.cif_source.specs.Source.{decl_tree, location_tree, automaton_tree, source_item, source_items, source_of};
ghost use Rattle.cif_scope.specs.Written.{body_of_written, written_bodies};
ghost use Rattle.cif_inst_constants.specs.Slots as slots;

use cif_ast::{AutoBody, Decl, Item, Loc, Spec};
use cif_base::{Items, Memory};
use cif_scope::{Inside, Written, written_bodies};
use std::alloc::Global;

/// Adds names that no declaration declares.
fn add_none<'a>(count: usize, row: &mut Items<Option<&'a Decl>>) -> Result<(), Memory>
    ensures { OnOk result (slots.row_of row.new ≡ slots.row_of row.old ++ slots.nones count) }
{
    for _name in 0..count {
        row.push(None)?;
    }
    Ok(())
}

/// Adds the names that a declaration declares.
fn add_decl<'a>(decl: &'a Decl, row: &mut Items<Option<&'a Decl>>) -> Result<(), Memory>
    ensures { OnOk result (slots.row_of row.new ≡ slots.row_of row.old ++ slots.decl_slots (decl_tree decl.now)) }
{
    match decl {
        Decl::Enum { name: _, literals } => {
            row.push(Some(decl))?;
            add_none(literals.len(), row)
        }
        Decl::TypeName { .. }
        | Decl::Event { .. }
        | Decl::Const { .. }
        | Decl::Alg { .. }
        | Decl::Input { .. }
        | Decl::Disc { .. } => row.push(Some(decl)),
        Decl::Equation { .. } | Decl::Inv(_) | Decl::Marked(_) => Ok(()),
    }
}

fn add_decls<'a>(decls: &'a [Decl], row: &mut Items<Option<&'a Decl>>) -> Result<(), Memory>
    ensures { OnOk result (slots.row_of row.new ≡ slots.row_of row.old ++ flat_map slots.decl_slots (map decl_tree decls.now)) }
{
    for decl in decls {
        add_decl(decl, row)?;
    }
    Ok(())
}

fn add_locations<'a>(locs: &'a [Loc], row: &mut Items<Option<&'a Decl>>) -> Result<(), Memory>
    ensures { OnOk result (slots.row_of row.new ≡ slots.row_of row.old ++ flat_map slots.location_slots (map location_tree locs.now)) }
{
    for loc in locs {
        if loc.name.is_some() {
            row.push(None)?;
        }
    }
    Ok(())
}

fn add_automaton<'a>(
    automaton: &'a AutoBody,
    row: &mut Items<Option<&'a Decl>>,
) -> Result<(), Memory>
    ensures { OnOk result (slots.row_of row.new ≡ slots.row_of row.old ++ slots.automaton_slots (automaton_tree automaton.now)) }
{
    add_decls(automaton.decls.as_slice(), row)?;
    add_locations(automaton.locs.as_slice(), row)
}

fn add_item<'a>(item: &'a Item, row: &mut Items<Option<&'a Decl>>) -> Result<(), Memory>
    ensures { OnOk result (slots.row_of row.new ≡ slots.row_of row.old ++ slots.item_slots (source_item (view_item item.now))) }
{
    match item {
        Item::Decl(decl) => add_decl(decl, row),
        Item::Comp(_) | Item::Def(_) | Item::Inst(_) => row.push(None),
    }
}

fn add_items<'a>(items: &'a [Item], row: &mut Items<Option<&'a Decl>>) -> Result<(), Memory>
    ensures { OnOk result (slots.row_of row.new ≡ slots.row_of row.old ++ slots.slots_in (source_items (view_items items.now))) }
{
    for item in items {
        add_item(item, row)?;
    }
    Ok(())
}

fn body_slots<'a>(alloc: Global, body: Written<'a>) -> Result<Items<Option<&'a Decl>>, Memory>
    ensures { IfOk result (λ row. slots.row_of row ≡ slots.written_slots (body_of_written body.entry)) }
{
    let mut row = Items::new(alloc);
    add_none(body.params.len(), &mut row)?;
    match body.inside {
        Inside::Group(items) => add_items(items, &mut row)?,
        Inside::Automaton(automaton) => add_automaton(automaton, &mut row)?,
    }
    Ok(row)
}

fn all_slots<'a>(
    alloc: Global,
    written: &[Written<'a>],
) -> Result<Items<Items<Option<&'a Decl>>>, Memory>
    ensures { IfOk result (λ all. map slots.row_of all ≡ map slots.written_slots (map body_of_written written.now)) }
{
    let mut all = Items::new(alloc);
    for one in written {
        all.push(body_slots(alloc, *one)?)?;
    }
    Ok(all)
}

/// For each name of each body the declaration that declares it.
pub fn declarations<'a>(
    alloc: Global,
    spec: &'a Spec,
) -> Result<Items<Items<Option<&'a Decl>>>, Memory>
    ensures { IfOk result (λ all. map slots.row_of all ≡ map slots.written_slots (written_bodies (source_of spec.now))) }
{
    let written = written_bodies(alloc, spec)?;
    all_slots(alloc, written.as_slice())
}
