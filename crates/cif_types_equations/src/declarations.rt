//! The declarations of a body.

ghost use Rattle.std.specs.Prelude.{◌≡◌, ◌++◌, map, flat_map, IfOk, OnOk};
ghost use Rattle.cif_ast.specs.View.{view_item, view_items};
ghost use Rattle.cif_source.specs.Source.{decl_tree, source_item, source_items, list_of_items};
ghost use Rattle.cif_source.specs.Objects.{item_decls, decls_in};
ghost use Rattle.cif_scope.specs.Written.{inside_of};
ghost use Rattle.cif_types_equations.specs.Views.{decl_of};

use cif_ast::{Decl, Item};
use cif_base::Memory;
use cif_scope::Inside;
use std::alloc::Global;

fn add_item<'a>(item: &'a Item, found: &mut Vec<&'a Decl>) -> Result<(), Memory>
    ensures { OnOk result (map decl_of found.new.items
        ≡ map decl_of found.old.items ++ item_decls (source_item (view_item item.now))) }
{
    match item {
        Item::Decl(decl) => Ok(found.push(decl)?),
        Item::Comp(_) | Item::Def(_) | Item::Inst(_) => Ok(()),
    }
}

fn add_items<'a>(items: &'a [Item], found: &mut Vec<&'a Decl>) -> Result<(), Memory>
    ensures { OnOk result (map decl_of found.new.items
        ≡ map decl_of found.old.items ++ flat_map item_decls (list_of_items (source_items (view_items items.now)))) }
{
    for item in items {
        add_item(item, found)?;
    }
    Ok(())
}

fn add_decls<'a>(decls: &'a [Decl], found: &mut Vec<&'a Decl>) -> Result<(), Memory>
    ensures { OnOk result (map decl_of found.new.items ≡ map decl_of found.old.items ++ map decl_tree decls.now) }
{
    for decl in decls {
        found.push(decl)?;
    }
    Ok(())
}

/// The declarations of a body, in text order.
pub fn declarations<'a>(alloc: Global, inside: Inside<'a>) -> Result<Vec<&'a Decl>, Memory>
    ensures { IfOk result (λ found. map decl_of found.items ≡ decls_in (inside_of inside.entry)) }
{
    let mut found = Vec::new(alloc);
    match inside {
        Inside::Group(items) => add_items(items, &mut found)?,
        Inside::Automaton(body) => add_decls(body.decls.as_slice(), &mut found)?,
    }
    Ok(found)
}
