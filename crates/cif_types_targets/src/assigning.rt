//! The variables that a list of updates assigns.

ghost use Rattle.std.specs.Prelude.{◌≡◌, ◌++◌, map, IfOk, OnOk};
ghost use Rattle.cif_ast.specs.View.{view_update, view_updates, view_update_branches};
ghost use Rattle.cif_source.specs.BodyRules.{targets_of, targets_of_all, targets_of_branches};
ghost use Rattle.cif_types_targets.specs.Assigned.{numbered, assigned_by};
ghost use Rattle.cif_types_targets.specs.Views.{assigned_of};

use cif_ast::{Name, Update, UpdateBranch};
use cif_base::Memory;
use cif_scope::number;
use std::alloc::Global;

/// A name that is assigned, and the number of the update of a list in which it is, at any depth.
#[derive(Clone, Copy, Drop)]
pub struct Assigned<'a> {
    pub update: u32,
    pub name: &'a Name,
}

/// Adds the names that an update assigns, which is the one with this number or stands in it.
#[cycle(assigning)]
fn add_update<'a>(
    update: &'a Update,
    number: u32,
    found: &mut Vec<Assigned<'a>>,
) -> Result<(), Memory>
    ensures { OnOk result (map assigned_of found.new.items
        ≡ map assigned_of found.old.items ++ map (numbered number) (targets_of (view_update update.now))) }
{
    match update {
        Update::Set { target, value: _ } => Ok(found.push(Assigned {
            update: number,
            name: target,
        })?),
        Update::If { branches, other } => {
            add_branches(branches.as_slice(), number, found)?;
            add_updates(other.as_slice(), number, found)
        }
    }
}

#[cycle(assigning)]
fn add_updates<'a>(
    all: &'a [Update],
    number: u32,
    found: &mut Vec<Assigned<'a>>,
) -> Result<(), Memory>
    ensures { OnOk result (map assigned_of found.new.items
        ≡ map assigned_of found.old.items ++ map (numbered number) (targets_of_all (view_updates all.now))) }
{
    for update in all {
        add_update(update, number, found)?;
    }
    Ok(())
}

#[cycle(assigning)]
fn add_branches<'a>(
    all: &'a [UpdateBranch],
    number: u32,
    found: &mut Vec<Assigned<'a>>,
) -> Result<(), Memory>
    ensures { OnOk result (map assigned_of found.new.items
        ≡ map assigned_of found.old.items ++ map (numbered number) (targets_of_branches (view_update_branches all.now))) }
{
    for branch in all {
        add_updates(branch.updates.as_slice(), number, found)?;
    }
    Ok(())
}

fn add_list<'a>(list: &'a [Update], found: &mut Vec<Assigned<'a>>) -> Result<(), Memory>
    ensures { OnOk result (map assigned_of found.new.items
        ≡ map assigned_of found.old.items ++ assigned_by 0 (view_updates list.now)) }
{
    for (place, update) in list.iter().enumerate() {
        add_update(update, number(place)?, found)?;
    }
    Ok(())
}

/// The names that a list of updates assigns, in order, each with the number of its update.
pub fn names_assigned<'a>(alloc: Global, list: &'a [Update]) -> Result<Vec<Assigned<'a>>, Memory>
    ensures { IfOk result (λ found. map assigned_of found.items ≡ assigned_by 0 (view_updates list.now)) }
{
    let mut found = Vec::new(alloc);
    add_list(list, &mut found)?;
    Ok(found)
}
