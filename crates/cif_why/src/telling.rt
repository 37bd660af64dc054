//! All reasons why an event has no step.

ghost use Rattle.std.specs.Prelude.{◌≡◌, ◌<◌, [], length, map, IfOk, OnOk};
ghost use Rattle.cif_system.specs.System.{IsState};
ghost use Rattle.cif_net.specs.View.{net_tree, state_tree};
ghost use Rattle.cif_eval.specs.Choices.{system_of};
ghost use Rattle.cif_why_model.specs.Reasons.{all_reasons, reasons_of};
ghost use Rattle.cif_sim_names.specs.Nets.{told_of_net};
ghost use Rattle.cif_why.specs.View.{reason_tree};

use crate::breaking::add_breaks;
use crate::excluding::add_excluded;
use crate::leaves::add_leaves;
use crate::openings::openings_of;
use crate::reason::Reason;
use crate::roles::add_roles;
use crate::stepping::has_step;
use cif_base::{Items, Memory};
use cif_net::{Guarded, State};
use std::alloc::Global;

/// The reasons why an event has no step in a state, in the order of `Reason` and of one kind in that of their numbers; none
/// where it has a step. The state may be one in which a state invariant is false.
pub fn reasons(
    alloc: Global,
    guarded: &Guarded,
    state: &State,
    event: u32,
) -> Result<Vec<Reason>, Memory>
    requires event { event < length guarded.now.plain.net.events }
    requires state { IsState (system_of guarded.now) (state_tree state.now) }
    ensures { IfOk result (λ all. map reason_tree all.items ≡ reasons_of (system_of guarded.now) (told_of_net (net_tree guarded.now.plain.net)) (state_tree state.now) event) }
{
    if has_step(alloc, guarded, state, event)? {
        return Ok(Vec::new(alloc));
    }
    all_reasons(alloc, guarded, state, event)
}

/// All reasons that hold, whether the event has a step or not.
fn all_reasons(
    alloc: Global,
    guarded: &Guarded,
    state: &State,
    event: u32,
) -> Result<Vec<Reason>, Memory>
    requires event { event < length guarded.now.plain.net.events }
    requires state { IsState (system_of guarded.now) (state_tree state.now) }
    ensures { IfOk result (λ all. map reason_tree all.items ≡ all_reasons (system_of guarded.now) (told_of_net (net_tree guarded.now.plain.net)) (state_tree state.now) event) }
{
    let mut all = Items::new(alloc);
    let plain = &guarded.plain;
    add_roles(plain, state, event, &mut all)?;
    add_excluded(plain, state, event, &mut all)?;
    let openings = openings_of(alloc, plain, state, event)?;
    add_leaves(alloc, guarded, openings.as_slice(), state, event, &mut all)?;
    add_breaks(alloc, guarded, openings.as_slice(), state, event, &mut all)?;
    Ok(all.into_vec())
}
