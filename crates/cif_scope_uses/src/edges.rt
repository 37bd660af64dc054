//! The names of edges and their updates.

ghost use Rattle.std.specs.Prelude.{◌≡◌, ◌++◌, map, flat_map, OnOk};
ghost use Rattle.cif_ast.specs.View.{view, view_update, view_updates, view_update_branches};
ghost use Rattle.cif_source.specs.Source.{role_tree, use_tree, edge_tree};
ghost use Rattle.cif_source.specs.Uses.{value_uses, role_uses, event_uses, update_uses, updates_uses, branches_uses, edge_uses};
ghost use Rattle.cif_scope_uses.specs.Views.{use_of};

use crate::declarations::add_optional;
use crate::expressions::{add_all_names, add_names};
use crate::uses::{Asked, Use};
use cif_ast::{Edge, EventUse, Expr, Role, Update, UpdateBranch};
use cif_base::Memory;

/// Adds the names of expressions that stand for themselves.
pub fn add_values<'a>(all: &'a [Expr], found: &mut Vec<Use<'a>>) -> Result<(), Memory>
    ensures { OnOk result (map use_of found.new.items
        ≡ map use_of found.old.items ++ flat_map value_uses (map view all.now)) }
{
    for expr in all {
        add_names(expr, Asked::Value, found)?;
    }
    Ok(())
}

fn add_role<'a>(role: &'a Role, found: &mut Vec<Use<'a>>) -> Result<(), Memory>
    ensures { OnOk result (map use_of found.new.items
        ≡ map use_of found.old.items ++ role_uses (role_tree role.now)) }
{
    match role {
        Role::Sync | Role::Recv => Ok(()),
        Role::Send(value) => add_optional(value, found),
    }
}

fn add_event<'a>(event: &'a EventUse, found: &mut Vec<Use<'a>>) -> Result<(), Memory>
    ensures { OnOk result (map use_of found.new.items
        ≡ map use_of found.old.items ++ event_uses (use_tree event.now)) }
{
    found.push(Use {
        name: &event.name,
        asks: Asked::Event,
    })?;
    add_role(&event.role, found)
}

fn add_events<'a>(all: &'a [EventUse], found: &mut Vec<Use<'a>>) -> Result<(), Memory>
    ensures { OnOk result (map use_of found.new.items
        ≡ map use_of found.old.items ++ flat_map event_uses (map use_tree all.now)) }
{
    for event in all {
        add_event(event, found)?;
    }
    Ok(())
}

#[cycle(updates)]
fn add_update<'a>(update: &'a Update, found: &mut Vec<Use<'a>>) -> Result<(), Memory>
    ensures { OnOk result (map use_of found.new.items
        ≡ map use_of found.old.items ++ update_uses (view_update update.now)) }
{
    match update {
        Update::Set { target, value } => {
            found.push(Use {
                name: target,
                asks: Asked::Variable,
            })?;
            add_names(value, Asked::Value, found)
        }
        Update::If { branches, other } => {
            add_branches(branches.as_slice(), found)?;
            add_updates(other.as_slice(), found)
        }
    }
}

#[cycle(updates)]
fn add_updates<'a>(all: &'a [Update], found: &mut Vec<Use<'a>>) -> Result<(), Memory>
    ensures { OnOk result (map use_of found.new.items
        ≡ map use_of found.old.items ++ updates_uses (view_updates all.now)) }
{
    for update in all {
        add_update(update, found)?;
    }
    Ok(())
}

#[cycle(updates)]
fn add_branches<'a>(all: &'a [UpdateBranch], found: &mut Vec<Use<'a>>) -> Result<(), Memory>
    ensures { OnOk result (map use_of found.new.items
        ≡ map use_of found.old.items ++ branches_uses (view_update_branches all.now)) }
{
    for branch in all {
        add_all_names(branch.conds.as_slice(), Asked::Value, found)?;
        add_updates(branch.updates.as_slice(), found)?;
    }
    Ok(())
}

fn add_edge<'a>(edge: &'a Edge, found: &mut Vec<Use<'a>>) -> Result<(), Memory>
    ensures { OnOk result (map use_of found.new.items
        ≡ map use_of found.old.items ++ edge_uses (edge_tree edge.now)) }
{
    add_events(edge.uses.as_slice(), found)?;
    add_values(edge.guards.as_slice(), found)?;
    add_updates(edge.updates.as_slice(), found)
}

/// Adds the names that edges write, but for their targets.
pub fn add_edges<'a>(all: &'a [Edge], found: &mut Vec<Use<'a>>) -> Result<(), Memory>
    ensures { OnOk result (map use_of found.new.items
        ≡ map use_of found.old.items ++ flat_map edge_uses (map edge_tree all.now)) }
{
    for edge in all {
        add_edge(edge, found)?;
    }
    Ok(())
}
