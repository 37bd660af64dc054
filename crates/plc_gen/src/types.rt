//! The types of the own variables of a choice's expressions, in the order of its statements.

ghost use Rattle.std.specs.Prelude.{◌≡◌, ◌++◌, map, OnOk, None};
ghost use Rattle.cif_net_expr.specs.View.{view_update, view_update_branches, view_updates};
ghost use Rattle.cif_net_model.specs.Listing.{all_hold};
ghost use Rattle.cif_net.specs.View.{choice_tree, net_tree};
ghost use Rattle.plc_expr.specs.Sorts.{own_types};
ghost use Rattle.plc_event_model.specs.Keeps.{asked, invariants_at};
ghost use Rattle.plc_event_model.specs.Own as o;
ghost use Rattle.plc_event_model.specs.Sends as s;

use cif_base::{Items, Memory, Ty};
use cif_net::{Choice, Net, NetUpdate, NetUpdateBranch};
use plc_event::{Changes, carried_type, invariants_after};
use plc_expr_walk::own_types_of;
use st_ast::StTy;
use std::alloc::Global;

/// The type of what is sent over the event of these choices.
pub(crate) fn event_type(net: &Net, choices: &[Choice]) -> Option<Ty>
    ensures { result ≡ s.event_type (net_tree net.now) (map choice_tree choices.now) }
{
    match choices.first() {
        Some(choice) => carried_type(net, choice),
        None => None,
    }
}

/// Adds the types of the own variables of the test, of what is sent, of the updates from the last to the first, which may read
/// what is sent, and of the state invariants that are tested after the choice.
pub(crate) fn add_choice_types(
    alloc: Global,
    choice: &Choice,
    net: &Net,
    changes: &mut Changes,
    types: &mut Items<StTy>,
) -> Result<(), Memory>
    ensures { OnOk result (types.new ≡ types.old ++ o.choice_types (net_tree net.now) (choice_tree choice.now)) }
{
    own_types_of(&choice.test, net, None, types)?;
    sent_types(choice, net, types)?;
    updates_types(
        choice.writes.as_slice(),
        net,
        carried_type(net, choice),
        types,
    )?;
    invariants_types_after(alloc, choice, net, changes, types)
}

fn invariants_types_after(
    alloc: Global,
    choice: &Choice,
    net: &Net,
    changes: &mut Changes,
    types: &mut Items<StTy>,
) -> Result<(), Memory>
    ensures { OnOk result (types.new ≡ types.old ++ own_types (net_tree net.now) None (all_hold (asked (net_tree net.now) (choice_tree choice.now)))) }
{
    let numbers = invariants_after(alloc, net, choice, changes)?;
    invariants_types(net, numbers.as_slice(), types)
}

fn sent_types(choice: &Choice, net: &Net, types: &mut Items<StTy>) -> Result<(), Memory>
    ensures { OnOk result (types.new ≡ types.old ++ o.sent_types (net_tree net.now) (choice_tree choice.now).sent) }
{
    match &choice.sent {
        Some(value) => own_types_of(value, net, None, types),
        None => Ok(()),
    }
}

#[cycle(types)]
fn updates_types(
    updates: &[NetUpdate],
    net: &Net,
    received: Option<Ty>,
    types: &mut Items<StTy>,
) -> Result<(), Memory>
    ensures { OnOk result (types.new ≡ types.old ++ o.updates_types (net_tree net.now) received (view_updates updates.now)) }
{
    for at in (0..updates.len()).rev() {
        update_types(&updates[at], net, received, types)?;
    }
    Ok(())
}

#[cycle(types)]
fn update_types(
    update: &NetUpdate,
    net: &Net,
    received: Option<Ty>,
    types: &mut Items<StTy>,
) -> Result<(), Memory>
    ensures { OnOk result (types.new ≡ types.old ++ o.update_types (net_tree net.now) received (view_update update.now)) }
{
    match update {
        NetUpdate::Set { var: _, value } => own_types_of(value, net, received, types),
        NetUpdate::If { branches, other } => {
            conditions_types(branches.as_slice(), net, received, types)?;
            bodies_types(branches.as_slice(), net, received, types)?;
            updates_types(other.as_slice(), net, received, types)
        }
    }
}

fn conditions_types(
    branches: &[NetUpdateBranch],
    net: &Net,
    received: Option<Ty>,
    types: &mut Items<StTy>,
) -> Result<(), Memory>
    ensures { OnOk result
        (types.new ≡ types.old ++ o.conditions_types (net_tree net.now) received (view_update_branches branches.now)) }
{
    for branch in branches {
        own_types_of(&branch.cond, net, received, types)?;
    }
    Ok(())
}

#[cycle(types)]
fn bodies_types(
    branches: &[NetUpdateBranch],
    net: &Net,
    received: Option<Ty>,
    types: &mut Items<StTy>,
) -> Result<(), Memory>
    ensures { OnOk result
        (types.new ≡ types.old ++ o.bodies_types (net_tree net.now) received (view_update_branches branches.now)) }
{
    for branch in branches {
        updates_types(branch.updates.as_slice(), net, received, types)?;
    }
    Ok(())
}

/// Adds the types of the own variables of these invariants. An invariant that the net lacks is reported as `Memory`; no choice
/// has one.
fn invariants_types(net: &Net, numbers: &[u32], types: &mut Items<StTy>) -> Result<(), Memory>
    ensures { OnOk result (types.new ≡ types.old ++ own_types (net_tree net.now) None (all_hold (invariants_at (net_tree net.now) numbers.now))) }
{
    for number in numbers {
        let Some(found) = net.invariants.get(*number as usize) else {
            return Err(Memory);
        };
        own_types_of(&found.pred, net, None, types)?;
    }
    Ok(())
}
