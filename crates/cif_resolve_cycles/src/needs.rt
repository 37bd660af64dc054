//! The graph of names: what a type or constant needs has to be known before it.

ghost use Rattle.std.specs.Prelude.{◌≡◌, ◌++◌, map, flat_map, IfOk, OnOk};
ghost use Rattle.cif_ast.specs.View.{view_item, view_items};
ghost use Rattle.cif_source.specs.Source.{decl_tree, location_tree, automaton_tree, source_item, source_items, source_of};
ghost use Rattle.cif_source.specs.Uses.{decl_uses};
ghost use Rattle.cif_scope_uses.specs.Views.{use_of};
ghost use Rattle.cif_scope.specs.Written.{body_of_written, inside_of, written_bodies};
ghost use Rattle.cif_resolve_cycles.specs.Names as names;

use crate::numbers::{firsts, number_of};
use cif_ast::{AutoBody, Decl, Item, Loc, Spec};
use cif_base::{Items, Memory};
use cif_scope::{Inside, Scopes, Written, number, written_bodies};
use cif_scope_uses::{Use, add_decl_uses};
use std::alloc::Global;

/// What names in a body denote, by numbers.
fn use_needs(
    alloc: Global,
    scopes: &Scopes,
    firsts: &[u32],
    body: u32,
    uses: &[Use<'_>],
) -> Result<Items<u32>, Memory>
    ensures { IfOk result (λ needs. needs ≡ names.use_needs scopes.now firsts.now body (map use_of uses.now)) }
{
    let mut needs = Items::new(alloc);
    for used in uses {
        if let Some(need) = number_of(firsts, scopes.look(true, body, used.name))? {
            needs.push(need)?;
        }
    }
    Ok(needs)
}

/// What the names that a declaration writes denote.
fn written_uses(
    alloc: Global,
    scopes: &Scopes,
    firsts: &[u32],
    body: u32,
    decl: &Decl,
) -> Result<Items<u32>, Memory>
    ensures { IfOk result (λ needs. needs ≡ names.use_needs scopes.now firsts.now body (decl_uses (decl_tree decl.now))) }
{
    let mut uses = Vec::new(alloc);
    add_decl_uses(decl, &mut uses)?;
    use_needs(alloc, scopes, firsts, body, uses.as_slice())
}

/// Adds names that need nothing.
fn add_none(alloc: Global, count: usize, all: &mut Items<Items<u32>>) -> Result<(), Memory>
    ensures { OnOk result (all.new ≡ all.old ++ names.no_needs count) }
{
    for _name in 0..count {
        all.push(Items::new(alloc))?;
    }
    Ok(())
}

/// Adds the needs of the names that a declaration declares.
fn add_decl(
    alloc: Global,
    scopes: &Scopes,
    firsts: &[u32],
    body: u32,
    decl: &Decl,
    all: &mut Items<Items<u32>>,
) -> Result<(), Memory>
    ensures { OnOk result (all.new ≡ all.old ++ names.decl_needs scopes.now firsts.now body (decl_tree decl.now)) }
{
    match decl {
        Decl::TypeName { .. } | Decl::Const { .. } => {
            all.push(written_uses(alloc, scopes, firsts, body, decl)?)
        }
        Decl::Enum { name: _, literals } => {
            all.push(Items::new(alloc))?;
            add_none(alloc, literals.len(), all)
        }
        Decl::Event { .. } | Decl::Alg { .. } | Decl::Input { .. } | Decl::Disc { .. } => {
            all.push(Items::new(alloc))
        }
        Decl::Equation { .. } | Decl::Inv(_) | Decl::Marked(_) => Ok(()),
    }
}

fn add_decls(
    alloc: Global,
    scopes: &Scopes,
    firsts: &[u32],
    body: u32,
    decls: &[Decl],
    all: &mut Items<Items<u32>>,
) -> Result<(), Memory>
    ensures { OnOk result (all.new ≡ all.old
        ++ flat_map (names.decl_needs scopes.now firsts.now body) (map decl_tree decls.now)) }
{
    for decl in decls {
        add_decl(alloc, scopes, firsts, body, decl, all)?;
    }
    Ok(())
}

fn add_locations(alloc: Global, locs: &[Loc], all: &mut Items<Items<u32>>) -> Result<(), Memory>
    ensures { OnOk result (all.new ≡ all.old ++ flat_map names.location_needs (map location_tree locs.now)) }
{
    for loc in locs {
        if loc.name.is_some() {
            all.push(Items::new(alloc))?;
        }
    }
    Ok(())
}

fn add_automaton(
    alloc: Global,
    scopes: &Scopes,
    firsts: &[u32],
    body: u32,
    automaton: &AutoBody,
    all: &mut Items<Items<u32>>,
) -> Result<(), Memory>
    ensures { OnOk result (all.new ≡ all.old
        ++ names.automaton_needs scopes.now firsts.now body (automaton_tree automaton.now)) }
{
    add_decls(alloc, scopes, firsts, body, automaton.decls.as_slice(), all)?;
    add_locations(alloc, automaton.locs.as_slice(), all)
}

fn add_item(
    alloc: Global,
    scopes: &Scopes,
    firsts: &[u32],
    body: u32,
    item: &Item,
    all: &mut Items<Items<u32>>,
) -> Result<(), Memory>
    ensures { OnOk result (all.new ≡ all.old
        ++ names.item_needs scopes.now firsts.now body (source_item (view_item item.now))) }
{
    match item {
        Item::Decl(decl) => add_decl(alloc, scopes, firsts, body, decl, all),
        Item::Comp(_) | Item::Def(_) | Item::Inst(_) => all.push(Items::new(alloc)),
    }
}

fn add_items(
    alloc: Global,
    scopes: &Scopes,
    firsts: &[u32],
    body: u32,
    items: &[Item],
    all: &mut Items<Items<u32>>,
) -> Result<(), Memory>
    ensures { OnOk result (all.new ≡ all.old
        ++ names.needs_in scopes.now firsts.now body (source_items (view_items items.now))) }
{
    for item in items {
        add_item(alloc, scopes, firsts, body, item, all)?;
    }
    Ok(())
}

/// Adds the needs of the names of a body.
fn add_body(
    alloc: Global,
    scopes: &Scopes,
    firsts: &[u32],
    body: u32,
    one: Written<'_>,
    all: &mut Items<Items<u32>>,
) -> Result<(), Memory>
    ensures { OnOk result (all.new ≡ all.old
        ++ names.written_needs scopes.now firsts.now body (body_of_written one.entry)) }
{
    add_none(alloc, one.params.len(), all)?;
    match one.inside {
        Inside::Group(items) => add_items(alloc, scopes, firsts, body, items, all),
        Inside::Automaton(automaton) => {
            add_automaton(alloc, scopes, firsts, body, automaton, all)
        }
    }
}

fn add_bodies(
    alloc: Global,
    scopes: &Scopes,
    firsts: &[u32],
    written: &[Written<'_>],
) -> Result<Items<Items<u32>>, Memory>
    ensures { IfOk result (λ all. all
        ≡ names.needs_from scopes.now firsts.now 0 (map body_of_written written.now)) }
{
    let mut all = Items::new(alloc);
    for (body, one) in written.iter().enumerate() {
        add_body(alloc, scopes, firsts, number(body)?, *one, &mut all)?;
    }
    Ok(all)
}

/// For each name of each body, numbered through, the names that it needs: those that the names in its type and value denote,
/// where it is a type or a constant.
pub fn name_graph(alloc: Global, spec: &Spec, scopes: &Scopes) -> Result<Items<Items<u32>>, Memory>
    ensures { IfOk result (λ all. all ≡ names.name_graph scopes.now (written_bodies (source_of spec.now))) }
{
    let written = written_bodies(alloc, spec)?;
    let firsts = firsts(alloc, scopes)?;
    add_bodies(alloc, scopes, firsts.as_slice(), written.as_slice())
}
