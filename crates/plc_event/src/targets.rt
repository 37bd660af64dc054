//! The variables that updates assign.

ghost use Rattle.std.specs.Prelude.{◌≡◌, ◌++◌, flat_map, map, IfOk, OnOk};
ghost use Rattle.cif_net_expr.specs.View.{view_update, view_update_branches, view_updates};
ghost use Rattle.cif_net_model.specs.Exprs as e;
ghost use Rattle.cif_net_model.specs.Listing.{NetChoice};
ghost use Rattle.cif_net.specs.View.{choice_tree, net_tree};
ghost use Rattle.plc_event.specs.Assigned.{vars_in, vars_of_all};
ghost use Rattle.plc_event_model.specs.Acts.{surely_set};
ghost use Rattle.plc_event_model.specs.Own.{event_vars};
ghost use Rattle.plc_event_model.specs.Writes as w;

use crate::changes::Changes;
use crate::marks::once_of;
use cif_base::{Items, Memory, Ty};
use cif_net::{Choice, Net, NetUpdate, NetUpdateBranch};
use std::alloc::Global;

/// Adds the variables that the updates assign, under a condition or not, in the order of the text.
#[cycle(targets)]
fn add_targets(updates: &[NetUpdate], found: &mut Items<u32>) -> Result<(), Memory>
    ensures { OnOk result (found.new ≡ found.old ++ vars_of_all (view_updates updates.now)) }
{
    for update in updates {
        match update {
            NetUpdate::Set { var, value: _ } => found.push(*var)?,
            NetUpdate::If { branches, other } => {
                add_branch_targets(branches.as_slice(), found)?;
                add_targets(other.as_slice(), found)?;
            }
        }
    }
    Ok(())
}

#[cycle(targets)]
fn add_branch_targets(branches: &[NetUpdateBranch], found: &mut Items<u32>) -> Result<(), Memory>
    ensures { OnOk result (found.new ≡ found.old ++ vars_in (view_update_branches branches.now)) }
{
    for branch in branches {
        add_targets(branch.updates.as_slice(), found)?;
    }
    Ok(())
}

/// The variables that updates assign, under a condition or not, in the order of the text.
#[tactic(auto, using(crate::proofs::Assigning::assigned_are))]
pub(crate) fn targets_of(alloc: Global, updates: &[NetUpdate]) -> Result<Items<u32>, Memory>
    ensures { IfOk result (λ all. all ≡ e.targets (view_updates updates.now)) }
{
    let mut all = Items::new(alloc);
    add_targets(updates, &mut all)?;
    Ok(all)
}

/// The variables that choices assign, in their order.
fn all_targets(alloc: Global, choices: &[Choice]) -> Result<Items<u32>, Memory>
    ensures { IfOk result (λ all. all ≡ flat_map (λ (c : NetChoice). e.targets c.writes) (map choice_tree choices.now)) }
{
    let mut all = Items::new(alloc);
    for choice in choices {
        add_targets(choice.writes.as_slice(), &mut all)?;
    }
    Ok(all)
}

/// The variables that the choices of an event assign, each once.
pub fn assigned_variables(
    alloc: Global,
    choices: &[Choice],
    changes: &mut Changes,
) -> Result<Items<u32>, Memory>
    ensures { IfOk result (λ all. all ≡ event_vars (map choice_tree choices.now)) }
{
    let targets = all_targets(alloc, choices)?;
    once_of(alloc, targets.as_slice(), &mut changes.variables)
}

/// Adds the variables that the updates assign under no condition.
pub(crate) fn add_surely_set(updates: &[NetUpdate], found: &mut Items<u32>) -> Result<(), Memory>
    ensures { OnOk result (found.new ≡ found.old ++ surely_set (view_updates updates.now)) }
{
    for update in updates {
        if let NetUpdate::Set { var, value: _ } = update {
            found.push(*var)?;
        }
    }
    Ok(())
}

/// Whether new values of the type are tested against its range.
pub(crate) fn is_tested(ty: Ty) -> bool
    ensures { result ≡ w.is_tested ty }
{
    match ty {
        Ty::Int { lo: _, hi: _ } => true,
        Ty::Bool | Ty::Enum { size: _ } => false,
    }
}

/// Whether new values of the variable are tested.
fn tests(net: &Net, number: u32) -> bool
    ensures { result ≡ w.tests (net_tree net.now) number }
{
    match net.vars.get(number as usize) {
        Some(found) => is_tested(found.ty),
        None => false,
    }
}

/// Whether some new value of the updates is tested.
#[cycle(tested)]
pub fn any_tested(net: &Net, updates: &[NetUpdate]) -> bool
    ensures { result ≡ w.any_tested (net_tree net.now) (view_updates updates.now) }
{
    for update in updates {
        if is_update_tested(net, update) {
            return true;
        }
    }
    false
}

#[cycle(tested)]
fn is_update_tested(net: &Net, update: &NetUpdate) -> bool
    ensures { result ≡ w.update_tested (net_tree net.now) (view_update update.now) }
{
    match update {
        NetUpdate::Set { var, value: _ } => tests(net, *var),
        NetUpdate::If { branches, other } => {
            any_branch_tested(net, branches.as_slice()) || any_tested(net, other.as_slice())
        }
    }
}

#[cycle(tested)]
fn any_branch_tested(net: &Net, branches: &[NetUpdateBranch]) -> bool
    ensures { result ≡ w.branches_tested (net_tree net.now) (view_update_branches branches.now) }
{
    for branch in branches {
        if any_tested(net, branch.updates.as_slice()) {
            return true;
        }
    }
    false
}
