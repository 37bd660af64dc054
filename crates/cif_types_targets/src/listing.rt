//! The lists of updates of a body, at any depth.

ghost use Rattle.std.specs.Prelude.{◌≡◌, ◌++◌, map, flat_map, IfOk, OnOk};
ghost use Rattle.cif_ast.specs.View.{view_update, view_updates, view_update_branches};
ghost use Rattle.cif_source.specs.Source.{edge_tree, location_tree};
ghost use Rattle.cif_source.specs.BodyRules.{lists_of, lists_in, lists_in_all, lists_in_branches};
ghost use Rattle.cif_scope.specs.Written.{inside_of};
ghost use Rattle.cif_types_targets.specs.Assigned.{location_lists, body_lists};
ghost use Rattle.cif_types_targets.specs.Views.{list_of};

use cif_ast::{Edge, Loc, Update, UpdateBranch};
use cif_base::Memory;
use cif_scope::Inside;
use std::alloc::Global;

/// Adds the lists that stand in an update.
#[cycle(listing)]
fn add_update<'a>(update: &'a Update, found: &mut Vec<&'a [Update]>) -> Result<(), Memory>
    ensures { OnOk result (map list_of found.new.items
        ≡ map list_of found.old.items ++ lists_in (view_update update.now)) }
{
    match update {
        Update::Set { .. } => Ok(()),
        Update::If { branches, other } => {
            add_branches(branches.as_slice(), found)?;
            found.push(other.as_slice())?;
            add_updates(other.as_slice(), found)
        }
    }
}

#[cycle(listing)]
fn add_updates<'a>(all: &'a [Update], found: &mut Vec<&'a [Update]>) -> Result<(), Memory>
    ensures { OnOk result (map list_of found.new.items
        ≡ map list_of found.old.items ++ lists_in_all (view_updates all.now)) }
{
    for update in all {
        add_update(update, found)?;
    }
    Ok(())
}

#[cycle(listing)]
fn add_branches<'a>(all: &'a [UpdateBranch], found: &mut Vec<&'a [Update]>) -> Result<(), Memory>
    ensures { OnOk result (map list_of found.new.items
        ≡ map list_of found.old.items ++ lists_in_branches (view_update_branches all.now)) }
{
    for branch in all {
        found.push(branch.updates.as_slice())?;
        add_updates(branch.updates.as_slice(), found)?;
    }
    Ok(())
}

fn add_edges<'a>(all: &'a [Edge], found: &mut Vec<&'a [Update]>) -> Result<(), Memory>
    ensures { OnOk result (map list_of found.new.items
        ≡ map list_of found.old.items ++ flat_map lists_of (map edge_tree all.now)) }
{
    for edge in all {
        found.push(edge.updates.as_slice())?;
        add_updates(edge.updates.as_slice(), found)?;
    }
    Ok(())
}

fn add_locations<'a>(all: &'a [Loc], found: &mut Vec<&'a [Update]>) -> Result<(), Memory>
    ensures { OnOk result (map list_of found.new.items
        ≡ map list_of found.old.items ++ flat_map location_lists (map location_tree all.now)) }
{
    for loc in all {
        add_edges(loc.edges.as_slice(), found)?;
    }
    Ok(())
}

/// The lists of updates of a body's edges, and those within them, each edge's own list first.
pub fn lists<'a>(alloc: Global, inside: Inside<'a>) -> Result<Vec<&'a [Update]>, Memory>
    ensures { IfOk result (λ found. map list_of found.items ≡ body_lists (inside_of inside.entry)) }
{
    let mut found = Vec::new(alloc);
    match inside {
        Inside::Group(_) => {}
        Inside::Automaton(body) => add_locations(body.locs.as_slice(), &mut found)?,
    }
    Ok(found)
}
