//! The invariants that components state, in the order of the source (CIF 3 language reference, "Invariants").

ghost use Rattle.std.specs.Prelude.{◌≡◌, ◌++◌, map, flat_map, IfOk, OnOk};
ghost use Rattle.cif_ast.specs.View.{view_item, view_items};
ghost use Rattle.cif_source.specs.Source.{decl_tree, source_item, source_items};
ghost use Rattle.cif_scope.specs.Written.{inside_of};
ghost use Rattle.cif_inst_paths.specs.Views.{row_tree};
ghost use Rattle.cif_inst_predicates.specs.Stated as listed;
ghost use Rattle.cif_inst_predicates.specs.Views.{stated_tree};

use cif_ast::{Decl, Inv, Item};
use cif_base::Memory;
use cif_inst_paths::Row;
use cif_scope::{Inside, number};
use std::alloc::Global;

/// An invariant that a component states.
#[derive(Clone, Copy, Drop)]
pub struct Stated<'a> {
    pub component: u32,
    pub inv: &'a Inv,
}

/// Adds the invariant that a declaration of a component is, if it is one.
fn add_decl<'a>(component: u32, decl: &'a Decl, all: &mut Vec<Stated<'a>>) -> Result<(), Memory>
    ensures { OnOk result (map stated_tree all.new.items ≡ map stated_tree all.old.items ++ listed.decl_stated component (decl_tree decl.now)) }
{
    match decl {
        Decl::Inv(inv) => Ok(all.push(Stated { component, inv })?),
        Decl::TypeName { .. }
        | Decl::Enum { .. }
        | Decl::Event { .. }
        | Decl::Const { .. }
        | Decl::Alg { .. }
        | Decl::Input { .. }
        | Decl::Disc { .. }
        | Decl::Equation { .. }
        | Decl::Marked(_) => Ok(()),
    }
}

fn add_decls<'a>(component: u32, decls: &'a [Decl], all: &mut Vec<Stated<'a>>) -> Result<(), Memory>
    ensures { OnOk result (map stated_tree all.new.items ≡ map stated_tree all.old.items ++ flat_map (listed.decl_stated component) (map decl_tree decls.now)) }
{
    for decl in decls {
        add_decl(component, decl, all)?;
    }
    Ok(())
}

fn add_item<'a>(component: u32, item: &'a Item, all: &mut Vec<Stated<'a>>) -> Result<(), Memory>
    ensures { OnOk result (map stated_tree all.new.items ≡ map stated_tree all.old.items ++ listed.item_stated component (source_item (view_item item.now))) }
{
    match item {
        Item::Decl(decl) => add_decl(component, decl, all),
        Item::Comp(_) | Item::Def(_) | Item::Inst(_) => Ok(()),
    }
}

fn add_items<'a>(component: u32, items: &'a [Item], all: &mut Vec<Stated<'a>>) -> Result<(), Memory>
    ensures { OnOk result (map stated_tree all.new.items ≡ map stated_tree all.old.items ++ listed.items_stated component (source_items (view_items items.now))) }
{
    for item in items {
        add_item(component, item, all)?;
    }
    Ok(())
}

/// Adds the invariants that a component states.
fn add_row<'a>(component: u32, row: &'a Row<'a>, all: &mut Vec<Stated<'a>>) -> Result<(), Memory>
    ensures { OnOk result (map stated_tree all.new.items ≡ map stated_tree all.old.items ++ listed.body_stated component (inside_of row.now.inside)) }
{
    match row.inside {
        Inside::Group(items) => add_items(component, items, all),
        Inside::Automaton(automaton) => add_decls(component, automaton.decls.as_slice(), all),
    }
}

/// The invariants that these components state.
pub fn all_stated<'a>(alloc: Global, rows: &'a [Row<'a>]) -> Result<Vec<Stated<'a>>, Memory>
    ensures { IfOk result (λ all. map stated_tree all.items ≡ listed.rows_stated 0 (map row_tree rows.now)) }
{
    let mut all = Vec::new(alloc);
    for (place, row) in rows.iter().enumerate() {
        add_row(number(place)?, row, &mut all)?;
    }
    Ok(all)
}
