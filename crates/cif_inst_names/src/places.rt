//! Where the values of an edge stand in the source.

ghost use Rattle.std.specs.Prelude.{◌≡◌, ℕ, ◌++◌, map, IfOk, OnOk};
ghost use Rattle.cif_ast.specs.View.{view_update, view_updates, view_update_branches};
ghost use Rattle.cif_source.specs.Source.{role_tree, use_tree, edge_tree};
ghost use Rattle.cif_source.specs.BodyRules.{targets_of, targets_of_all, targets_of_branches};
ghost use Rattle.cif_inst_model.specs.Flat as flat;
ghost use Rattle.cif_inst_names.specs.Places.{name_place, sent_place};

use cif_ast::{Edge, EventUse, Role, Update, UpdateBranch};
use cif_base::{Items, Memory};
use std::alloc::Global;

#[cycle(targets)]
fn add_targets(all: &[Update], places: &mut Items<u32>) -> Result<(), Memory>
    ensures { OnOk result (places.new ≡ places.old ++ map name_place (targets_of_all (view_updates all.now))) }
{
    for update in all {
        add_targets_of(update, places)?;
    }
    Ok(())
}

#[cycle(targets)]
fn add_targets_of(update: &Update, places: &mut Items<u32>) -> Result<(), Memory>
    ensures { OnOk result (places.new ≡ places.old ++ map name_place (targets_of (view_update update.now))) }
{
    match update {
        Update::Set { target, value: _ } => places.push(target.at),
        Update::If { branches, other } => {
            add_branch_targets(branches.as_slice(), places)?;
            add_targets(other.as_slice(), places)
        }
    }
}

#[cycle(targets)]
fn add_branch_targets(all: &[UpdateBranch], places: &mut Items<u32>) -> Result<(), Memory>
    ensures { OnOk result (places.new ≡ places.old ++ map name_place (targets_of_branches (view_update_branches all.now))) }
{
    for branch in all {
        add_targets(branch.updates.as_slice(), places)?;
    }
    Ok(())
}

fn add_sent(role: &Role, places: &mut Items<u32>) -> Result<(), Memory>
    ensures { OnOk result (places.new ≡ places.old ++ sent_place (role_tree role.now)) }
{
    match role {
        Role::Send(Some(value)) => places.push(value.at),
        Role::Send(None) | Role::Sync | Role::Recv => Ok(()),
    }
}

/// Where the values of an edge for one use of an event stand: the value that it sends, and then the names that it assigns.
pub fn value_places(alloc: Global, event_use: &EventUse, edge: &Edge) -> Result<Items<u32>, Memory>
    ensures { (from : ℕ) → IfOk result (λ places. places
        ≡ flat.value_places (record { from = from; event_use = use_tree event_use.now; edge = edge_tree edge.now })) }
{
    let mut places = Items::new(alloc);
    add_sent(&event_use.role, &mut places)?;
    add_targets(edge.updates.as_slice(), &mut places)?;
    Ok(places)
}
