//! What the steps of a net may change.

ghost use Rattle.std.specs.Prelude.{◌≡◌, ◌<◌, ◌++◌, Some, length, map, slice_get, IfOk, OnOk};
ghost use Rattle.cif_net_expr.specs.View.{view_update, view_updates, view_update_branches};
ghost use Rattle.cif_net.specs.View.{choice_tree, move_tree};
ghost use Rattle.cif_net.specs.declared.listing.Choice.{Choice};
ghost use Rattle.cif_sim.specs.Stays.{movers, targets_all, targets_by, targets_in};
ghost use Rattle.cif_sim_run.specs.Made.{AreInOrder, AreTouches, IsTouchedBy};

use cif_base::{Items, Memory};
use cif_net::{Choice, Guarded, Move, Net, NetUpdate, NetUpdateBranch};
use cif_script::Touched;
use std::alloc::Global;
use std::marker::Model;

/// What each choice of a net may change. Contracts see the net with its choices.
#[derive(Drop)]
pub(crate) struct Touches<'a> {
    guarded: &'a Guarded,
    by_choice: Items<Touched>,
}

impl<'a> Model for Touches<'a> {
    ghost use Rattle.std.specs.Coded.{codes};
    ghost use Rattle.cif_net_expr.specs.contracts.expressions.NetForm as expressions;
    ghost use Rattle.cif_net_expr.specs.contracts.updates.NetUpdate as updates;
    ghost use Rattle.cif_net.specs.declared.guarded.Guarded.{Guarded};
    ghost use Rattle.cif_sim_run.specs.Made.{AreTouches};

    ghost Value = { Guarded };

    ghost coded = { Prim.hlevel (codes, expressions.the_row.coded, updates.the_row.coded) };

    ghost view = { λ x. x.guarded.now };

    ghost invariant = { λ x. AreTouches x.guarded.now.choices x.by_choice };
}

impl<'a> Touches<'a> {
    /// Takes memory in proportion to the moves and the updates of all choices.
    pub(crate) fn new(alloc: Global, guarded: &'a Guarded) -> Result<Touches<'a>, Memory>
        ensures { IfOk result (λ x. x ≡ guarded.now) }
    {
        let by_choice = all_touched(alloc, guarded.choices.as_slice())?;
        Ok(Touches { guarded, by_choice })
    }

    pub(crate) fn net(&self) -> &'a Net
        ensures { result.now ≡ self.now.plain.net }
    {
        &self.guarded.plain.net
    }

    /// What the choice with this number may change.
    pub(crate) fn of(&self, choice: u32) -> &Touched
        requires { choice < length self.now.choices }
        ensures { (c : Choice) → slice_get self.now.choices choice ≡ Some c → IsTouchedBy (choice_tree c) result.now }
    {
        &self.by_choice.as_slice()[choice as usize]
    }
}

/// What each of the choices may change.
fn all_touched(alloc: Global, choices: &[Choice]) -> Result<Items<Touched>, Memory>
    ensures { IfOk result (AreTouches choices.now) }
{
    let mut all = Items::new(alloc);
    for choice in choices {
        let touched = touched_by(alloc, choice)?;
        all.push(touched)?;
    }
    Ok(all)
}

/// The automata that a choice moves, and the variables that its updates may assign.
fn touched_by(alloc: Global, choice: &Choice) -> Result<Touched, Memory>
    ensures { IfOk result (IsTouchedBy (choice_tree choice.now)) }
{
    let mut movers = Items::new(alloc);
    add_movers(choice.moves.as_slice(), &mut movers)?;
    let mut targets = Items::new(alloc);
    add_targets(choice.writes.as_slice(), &mut targets)?;
    let autos = in_order(movers);
    let vars = in_order(targets);
    Ok(Touched { autos, vars })
}

/// The numbers in ascending order, each once.
fn in_order(numbers: Items<u32>) -> Items<u32>
    ensures { AreInOrder numbers result }
{
    let mut numbers = numbers.into_vec();
    numbers.sort_unstable();
    numbers.dedup();
    Items::from_vec(numbers)
}

/// Adds the automata that moves name.
fn add_movers(moves: &[Move], autos: &mut Items<u32>) -> Result<(), Memory>
    ensures { OnOk result (autos.new ≡ autos.old ++ movers (map move_tree moves.now)) }
{
    for step in moves {
        autos.push(step.auto)?;
    }
    Ok(())
}

/// Adds the variables that updates may assign.
#[cycle(targets)]
fn add_targets(updates: &[NetUpdate], vars: &mut Items<u32>) -> Result<(), Memory>
    ensures { OnOk result (vars.new ≡ vars.old ++ targets_all (view_updates updates.now)) }
{
    for update in updates {
        add_target(update, vars)?;
    }
    Ok(())
}

#[cycle(targets)]
fn add_target(update: &NetUpdate, vars: &mut Items<u32>) -> Result<(), Memory>
    ensures { OnOk result (vars.new ≡ vars.old ++ targets_by (view_update update.now)) }
{
    match update {
        NetUpdate::Set { var, value: _ } => vars.push(*var),
        NetUpdate::If { branches, other } => {
            add_branch_targets(branches.as_slice(), vars)?;
            add_targets(other.as_slice(), vars)
        }
    }
}

#[cycle(targets)]
fn add_branch_targets(branches: &[NetUpdateBranch], vars: &mut Items<u32>) -> Result<(), Memory>
    ensures { OnOk result (vars.new ≡ vars.old ++ targets_in (view_update_branches branches.now)) }
{
    for branch in branches {
        add_targets(branch.updates.as_slice(), vars)?;
    }
    Ok(())
}
