//! The pairs that updates assign, evaluated in the old state (CIF 3 language reference, "Automata").

ghost use Rattle.std.specs.Prelude.{◌≡◌, ◌+◌, ◌<◌, ◌≤◌, [], ◌∷◌, ◌++◌, length, OnOk};
ghost use Rattle.cif_net_expr.specs.View.{view, view_update, view_updates, view_update_branches};
ghost use Rattle.cif_net.specs.View.{state_tree};
ghost use Rattle.cif_net_model.specs.Safe.{IsSafe, value_at};
ghost use Rattle.cif_value.specs.Settings.{told};
ghost use Rattle.cif_eval.specs.Updates.{AreSafeUpdates, IsSafeUpdate, AreSafeChoices, is_taken, most_pairs, most_by, most_in};
ghost use Rattle.cif_eval.specs.Writes.{assigned_all, assigned_by, assigned_in};

use crate::pairs::Pairs;
use cif_base::Memory;
use cif_net::{NetExpr, NetUpdate, NetUpdateBranch, State};
use cif_value::eval;

/// Adds the pairs that updates assign, where a value is received.
#[cycle(assigning)]
pub(crate) fn assign_all(updates: &[NetUpdate], state: &State, received: i64, pairs: &mut Pairs)
    requires safe { AreSafeUpdates (told state.now received) (view_updates updates.now) }
    requires room { length pairs.old.pairs + most_pairs (view_updates updates.now) ≤ pairs.old.room }
    ensures pairs { pairs.new.pairs ≡ pairs.old.pairs ++ assigned_all (state_tree state.now) received (view_updates updates.now) }
    ensures few { length pairs.new.pairs ≤ length pairs.old.pairs + most_pairs (view_updates updates.now) }
    ensures room { pairs.new.room ≡ pairs.old.room }
{
    for update in updates {
        assign_one(update, state, received, pairs);
    }
}

#[cycle(assigning)]
fn assign_one(update: &NetUpdate, state: &State, received: i64, pairs: &mut Pairs)
    requires safe { IsSafeUpdate (told state.now received) (view_update update.now) }
    requires room { length pairs.old.pairs + most_by (view_update update.now) ≤ pairs.old.room }
    ensures pairs { pairs.new.pairs ≡ pairs.old.pairs ++ assigned_by (state_tree state.now) received (view_update update.now) }
    ensures few { length pairs.new.pairs ≤ length pairs.old.pairs + most_by (view_update update.now) }
    ensures room { pairs.new.room ≡ pairs.old.room }
{
    match update {
        NetUpdate::Set { var, value } => assign_value(*var, value, state, received, pairs),
        NetUpdate::If { branches, other } => {
            if !assign_taken(branches.as_slice(), state, received, pairs) {
                assign_all(other.as_slice(), state, received, pairs);
            }
        }
    }
}

/// Adds the pairs of the first branch whose condition holds, and returns whether there is one.
#[cycle(assigning)]
fn assign_taken(
    branches: &[NetUpdateBranch],
    state: &State,
    received: i64,
    pairs: &mut Pairs,
) -> bool
    requires safe { AreSafeChoices (told state.now received) (view_update_branches branches.now) }
    requires room { length pairs.old.pairs + most_in (view_update_branches branches.now) ≤ pairs.old.room }
    ensures taken { result ≡ is_taken (told state.now received) (view_update_branches branches.now) }
    ensures pairs { pairs.new.pairs ≡ pairs.old.pairs ++ assigned_in (state_tree state.now) received (view_update_branches branches.now) }
    ensures few { length pairs.new.pairs ≤ length pairs.old.pairs + most_in (view_update_branches branches.now) }
    ensures room { pairs.new.room ≡ pairs.old.room }
{
    for branch in branches {
        if eval(&branch.cond, state, received) == 1 {
            assign_all(branch.updates.as_slice(), state, received, pairs);
            return true;
        }
    }
    false
}

/// Adds the pair of a variable and the value of an expression.
fn assign_value(variable: u32, value: &NetExpr, state: &State, received: i64, pairs: &mut Pairs)
    requires safe { IsSafe (told state.now received) (view value.now) }
    requires room { length pairs.old.pairs < pairs.old.room }
    ensures pairs { pairs.new.pairs ≡ pairs.old.pairs ++ (variable, value_at (told state.now received) (view value.now)) ∷ [] }
    ensures count { length pairs.new.pairs ≡ length pairs.old.pairs + 1 }
    ensures room { pairs.new.room ≡ pairs.old.room }
{
    pairs.push(variable, eval(value, state, received));
}

/// Makes room for the pairs of updates.
#[cycle(room)]
pub(crate) fn make_room(updates: &[NetUpdate], pairs: &mut Pairs) -> Result<(), Memory>
    ensures pairs { OnOk result (length pairs.new.pairs ≡ length pairs.old.pairs + most_pairs (view_updates updates.now)) }
    ensures room { pairs.old.room ≤ pairs.new.room }
{
    for update in updates {
        make_room_for_one(update, pairs)?;
    }
    Ok(())
}

#[cycle(room)]
fn make_room_for_one(update: &NetUpdate, pairs: &mut Pairs) -> Result<(), Memory>
    ensures pairs { OnOk result (length pairs.new.pairs ≡ length pairs.old.pairs + most_by (view_update update.now)) }
    ensures room { pairs.old.room ≤ pairs.new.room }
{
    match update {
        NetUpdate::Set { .. } => pairs.grow(),
        NetUpdate::If { branches, other } => {
            make_room_for_branches(branches.as_slice(), pairs)?;
            make_room(other.as_slice(), pairs)
        }
    }
}

#[cycle(room)]
fn make_room_for_branches(branches: &[NetUpdateBranch], pairs: &mut Pairs) -> Result<(), Memory>
    ensures pairs { OnOk result (length pairs.new.pairs ≡ length pairs.old.pairs + most_in (view_update_branches branches.now)) }
    ensures room { pairs.old.room ≤ pairs.new.room }
{
    for branch in branches {
        make_room(branch.updates.as_slice(), pairs)?;
    }
    Ok(())
}
