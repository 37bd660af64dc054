//! How many objects a body has, without those of the components in it: declarations, locations and edges, stopping past the limit.

ghost use Rattle.std.specs.Prelude.{◌≡◌, ◌+◌, ◌≤◌, map, IfOk};
ghost use Rattle.cif_source.specs.Source.{decl_tree, edge_tree, location_tree, source_items, source_item, source_of};
ghost use Rattle.cif_ast.specs.View.{view_item, view_items};
ghost use Rattle.cif_source.specs.InstanceRules.{decl_objects};
ghost use Rattle.cif_scope.specs.Written.{inside_of, written_bodies, body_of_written};
ghost use Rattle.cif_inst_components.specs.Sizes as sizes;

use cif_ast::{Decl, Edge, Inv, Item, Loc};
use cif_base::{Items, Memory};
use cif_scope::{Inside, Written};
use std::alloc::Global;

/// One more than there may be.
pub const TOO_MANY: u32 = 100_001;

/// The count with so many more, at most `TOO_MANY`.
pub fn with_more(count: u32, more: usize) -> u32
    requires { count ≤ TOO_MANY }
    ensures { result ≡ sizes.stop (count + more) }
{
    if more < (TOO_MANY - count) as usize {
        count + more as u32
    } else {
        TOO_MANY
    }
}

fn with_decl(count: u32, decl: &Decl) -> u32
    requires { count ≤ TOO_MANY }
    ensures { result ≡ sizes.stop (count + decl_objects (decl_tree decl.now)) }
{
    match decl {
        Decl::Inv(Inv::Needs { events, .. }) => with_more(count, events.len()),
        Decl::Inv(Inv::Disables { events, .. }) => with_more(count, events.len()),
        _ => with_more(count, 1),
    }
}

fn with_decls(count: u32, decls: &[Decl]) -> u32
    requires { count ≤ TOO_MANY }
    ensures { result ≡ sizes.stop (count + sizes.decls_size (map decl_tree decls.now)) }
{
    let mut count = count;
    for decl in decls {
        count = with_decl(count, decl);
    }
    count
}

fn with_item(count: u32, item: &Item) -> u32
    requires { count ≤ TOO_MANY }
    ensures { result ≡ sizes.stop (count + sizes.item_size (source_item (view_item item.now))) }
{
    match item {
        Item::Decl(decl) => with_decl(count, decl),
        Item::Comp(_) | Item::Def(_) | Item::Inst(_) => count,
    }
}

fn with_items(count: u32, items: &[Item]) -> u32
    requires { count ≤ TOO_MANY }
    ensures { result ≡ sizes.stop (count + sizes.items_size (source_items (view_items items.now))) }
{
    let mut count = count;
    for item in items {
        count = with_item(count, item);
    }
    count
}

fn with_edges(count: u32, edges: &[Edge]) -> u32
    requires { count ≤ TOO_MANY }
    ensures { result ≡ sizes.stop (count + sizes.edges_size (map edge_tree edges.now)) }
{
    let mut count = count;
    for edge in edges {
        count = with_more(count, edge.uses.len());
    }
    count
}

fn with_locations(count: u32, locs: &[Loc]) -> u32
    requires { count ≤ TOO_MANY }
    ensures { result ≡ sizes.stop (count + sizes.locations_size (map location_tree locs.now)) }
{
    let mut count = count;
    for loc in locs {
        count = with_more(count, 1);
        count = with_edges(count, loc.edges.as_slice());
    }
    count
}

fn inside_size(inside: Inside) -> u32
    ensures { result ≡ sizes.stop (sizes.body_size (inside_of inside.entry)) }
{
    match inside {
        Inside::Group(items) => with_items(0, items),
        Inside::Automaton(automaton) => {
            let count = with_decls(0, automaton.decls.as_slice());
            with_locations(count, automaton.locs.as_slice())
        }
    }
}

/// The objects of each body, as far as they are counted.
pub fn all_sizes(alloc: Global, written: &[Written]) -> Result<Items<u32>, Memory>
    ensures { IfOk result (λ all. all ≡ map sizes.written_size (map body_of_written written.now)) }
{
    let mut all = Items::new(alloc);
    for one in written {
        all.push(inside_size(one.inside))?;
    }
    Ok(all)
}
