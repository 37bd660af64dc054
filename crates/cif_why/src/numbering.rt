//! What updates assign, numbered among their right sides (CIF 3 language reference, "Automata").

ghost use Rattle.std.specs.Prelude.{◌≡◌, ◌+◌, ◌<◌, ◌^◌, [], ◌∷◌, ◌++◌, map, IfOk, OnOk};
ghost use Rattle.cif_net_expr.specs.View.{view, view_update, view_updates, view_update_branches};
ghost use Rattle.cif_net_model.specs.Safe.{IsSafe, value_at};
ghost use Rattle.cif_value.specs.Settings.{told};
ghost use Rattle.cif_eval.specs.Updates.{AreSafeChoices, AreSafeUpdates, IsSafeUpdate, is_taken, most_by, most_in, most_pairs};
ghost use Rattle.cif_why.specs.Numbering.{numbered_all, numbered_by, numbered_in, numbered_tree};

use cif_base::{Items, Memory};
use cif_net::{NetExpr, NetUpdate, NetUpdateBranch, State};
use cif_value::eval;

/// A value that is assigned to a variable, by the number of its right side.
#[derive(Clone, Copy)]
pub(crate) struct Numbered {
    pub(crate) number: u32,
    pub(crate) variable: u32,
    pub(crate) value: i64,
}

/// Adds what updates assign, where the first right side has the number `first`.
#[cycle(numbering)]
pub(crate) fn number_all(
    updates: &[NetUpdate],
    first: u32,
    state: &State,
    received: i64,
    found: &mut Items<Numbered>,
) -> Result<(), Memory>
    requires safe { AreSafeUpdates (told state.now received) (view_updates updates.now) }
    requires few { first + most_pairs (view_updates updates.now) < 2 ^ 32 }
    ensures { OnOk result (map numbered_tree found.new ≡ map numbered_tree found.old ++ numbered_all (told state.now received) first (view_updates updates.now)) }
{
    let mut next = first;
    for update in updates {
        number_one(update, next, state, received, found)?;
        next = behind_one(update, next);
    }
    Ok(())
}

#[cycle(numbering)]
fn number_one(
    update: &NetUpdate,
    first: u32,
    state: &State,
    received: i64,
    found: &mut Items<Numbered>,
) -> Result<(), Memory>
    requires safe { IsSafeUpdate (told state.now received) (view_update update.now) }
    requires few { first + most_by (view_update update.now) < 2 ^ 32 }
    ensures { OnOk result (map numbered_tree found.new ≡ map numbered_tree found.old ++ numbered_by (told state.now received) first (view_update update.now)) }
{
    match update {
        NetUpdate::Set { var, value } => number_value(*var, value, first, state, received, found),
        NetUpdate::If { branches, other } => {
            let branches = branches.as_slice();
            if number_taken(branches, first, state, received, found)? {
                return Ok(());
            }
            let next = behind_branches(branches, first);
            number_all(other.as_slice(), next, state, received, found)
        }
    }
}

/// Adds what the first branch whose condition holds assigns, and returns whether there is one.
#[cycle(numbering)]
fn number_taken(
    branches: &[NetUpdateBranch],
    first: u32,
    state: &State,
    received: i64,
    found: &mut Items<Numbered>,
) -> Result<bool, Memory>
    requires safe { AreSafeChoices (told state.now received) (view_update_branches branches.now) }
    requires few { first + most_in (view_update_branches branches.now) < 2 ^ 32 }
    ensures taken { IfOk result (λ taken. taken ≡ is_taken (told state.now received) (view_update_branches branches.now)) }
    ensures found { OnOk result (map numbered_tree found.new ≡ map numbered_tree found.old ++ numbered_in (told state.now received) first (view_update_branches branches.now)) }
{
    let mut next = first;
    for branch in branches {
        if eval(&branch.cond, state, received) == 1 {
            number_all(branch.updates.as_slice(), next, state, received, found)?;
            return Ok(true);
        }
        next = behind_updates(branch.updates.as_slice(), next);
    }
    Ok(false)
}

/// Adds the value of an expression for a variable.
fn number_value(
    variable: u32,
    value: &NetExpr,
    number: u32,
    state: &State,
    received: i64,
    found: &mut Items<Numbered>,
) -> Result<(), Memory>
    requires { IsSafe (told state.now received) (view value.now) }
    ensures { OnOk result (map numbered_tree found.new ≡ map numbered_tree found.old ++ record { number = number; variable = variable; value = value_at (told state.now received) (view value.now) } ∷ []) }
{
    let value = eval(value, state, received);
    found.push(Numbered {
        number,
        variable,
        value,
    })
}

/// The number behind those of the right sides of updates.
#[cycle(counting)]
fn behind_updates(updates: &[NetUpdate], first: u32) -> u32
    requires { first + most_pairs (view_updates updates.now) < 2 ^ 32 }
    ensures { result ≡ first + most_pairs (view_updates updates.now) }
{
    let mut next = first;
    for update in updates {
        next = behind_one(update, next);
    }
    next
}

#[cycle(counting)]
fn behind_one(update: &NetUpdate, first: u32) -> u32
    requires { first + most_by (view_update update.now) < 2 ^ 32 }
    ensures { result ≡ first + most_by (view_update update.now) }
{
    match update {
        NetUpdate::Set { .. } => first + 1,
        NetUpdate::If { branches, other } => {
            let next = behind_branches(branches.as_slice(), first);
            behind_updates(other.as_slice(), next)
        }
    }
}

#[cycle(counting)]
fn behind_branches(branches: &[NetUpdateBranch], first: u32) -> u32
    requires { first + most_in (view_update_branches branches.now) < 2 ^ 32 }
    ensures { result ≡ first + most_in (view_update_branches branches.now) }
{
    let mut next = first;
    for branch in branches {
        next = behind_updates(branch.updates.as_slice(), next);
    }
    next
}
