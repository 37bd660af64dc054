//! Which events have a mark of their own, that a choice was made.

ghost use Rattle.std.specs.Prelude.{◌≡◌, length, map, nat_eq, IfOk, None};
ghost use Rattle.std.specs.List.{list_all};
ghost use Rattle.cif_net_expr.specs.View.{view};
ghost use Rattle.cif_net.specs.View.{choice_tree, net_tree};
ghost use Rattle.plc_expr.specs.Texts.{temps};
ghost use Rattle.plc_event_model.specs.Events as d;
ghost use Rattle.plc_event_model.specs.Keeps.{asked};
ghost use Rattle.plc_event_model.specs.Parts.{needs_done};

use cif_base::{Items, Memory};
use cif_net::{Choice, Net, NetExpr};
use plc_event::{Changes, any_tested, invariants_after};
use plc_expr_walk::own_types_of;
use std::alloc::Global;

/// Whether an expression has no `if`.
fn has_no_if(alloc: Global, net: &Net, expr: &NetExpr) -> Result<bool, Memory>
    ensures { IfOk result (λ b. b ≡ nat_eq (temps (view expr.now)) 0) }
{
    let mut types = Items::new(alloc);
    own_types_of(expr, net, None, &mut types)?;
    Ok(types.is_empty())
}

/// Whether no state invariant is tested after the choice.
#[tactic(auto, using(crate::proofs::BareLaws::none_found))]
fn tests_no_invariant(
    alloc: Global,
    net: &Net,
    choice: &Choice,
    changes: &mut Changes,
) -> Result<bool, Memory>
    ensures { IfOk result (λ b. b ≡ nat_eq (length (asked (net_tree net.now) (choice_tree choice.now))) 0) }
{
    Ok(invariants_after(alloc, net, choice, changes)?.is_empty())
}

/// Whether there is no statement before the test of the choice, which alone decides whether there is a step.
fn is_bare(alloc: Global, net: &Net, choice: &Choice, changes: &mut Changes) -> Result<bool, Memory>
    ensures { IfOk result (λ b. b ≡ d.is_bare (net_tree net.now) (choice_tree choice.now)) }
{
    let is_direct = has_no_if(alloc, net, &choice.test)?;
    let is_free = tests_no_invariant(alloc, net, choice, changes)?;
    Ok(choice.sent.is_none() && !any_tested(net, choice.writes.as_slice()) && is_free && is_direct)
}

fn are_bare(
    alloc: Global,
    net: &Net,
    choices: &[Choice],
    changes: &mut Changes,
) -> Result<bool, Memory>
    ensures { IfOk result (λ b. b ≡ list_all (d.is_bare (net_tree net.now)) (map choice_tree choices.now)) }
{
    for choice in choices {
        if !is_bare(alloc, net, choice, changes)? {
            return Ok(false);
        }
    }
    Ok(true)
}

/// Whether the event of these choices has a mark of its own.
pub(crate) fn needs_mark(
    alloc: Global,
    net: &Net,
    choices: &[Choice],
    changes: &mut Changes,
) -> Result<bool, Memory>
    ensures { IfOk result (λ b. b ≡ needs_done (net_tree net.now) (map choice_tree choices.now)) }
{
    if choices.len() > 1 {
        Ok(!are_bare(alloc, net, choices, changes)?)
    } else {
        Ok(false)
    }
}
