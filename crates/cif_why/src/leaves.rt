//! The values of edges that leave their ranges in some choice that agrees with an event.

ghost use Rattle.std.specs.Prelude.{◌≡◌, ◌++◌, ◌<◌, false, flat_map, length, map, pos, replicate, zip, IfOk, OnOk};
ghost use Rattle.std.specs.List.{enumerate_from};
ghost use Rattle.cif_system.specs.System.{IsState};
ghost use Rattle.cif_net.specs.View.{auto_tree, choice_tree, edge_tree, net_tree, state_tree};
ghost use Rattle.cif_value.specs.Settings.{told};
ghost use Rattle.cif_eval.specs.Choices.{system_of};
ghost use Rattle.cif_why_model.specs.Reasons.{leaves_of};
ghost use Rattle.cif_sim_names.specs.Nets.{told_of_net};
ghost use Rattle.cif_why.specs.Agreeing.{is_agreeing};
ghost use Rattle.cif_why.specs.Leaving.{choices_marked};
ghost use Rattle.cif_why.specs.Marks.{unmarked, unmarked_rows};
ghost use Rattle.cif_why.specs.Openings.{openings_from};
ghost use Rattle.cif_why.specs.View.{reason_tree};

use crate::leaving::mark_choice;
use crate::marked::add_marked;
use crate::openings::{Opening, is_agreeing};
use crate::reason::Reason;
use cif_base::{Items, Memory};
use cif_net::{Auto, Guarded, NetEdge, State};
use std::alloc::Global;

/// Adds the values that leave their ranges in some choice that agrees with an event.
pub(crate) fn add_leaves(
    alloc: Global,
    guarded: &Guarded,
    openings: &[Opening],
    state: &State,
    event: u32,
    all: &mut Items<Reason>,
) -> Result<(), Memory>
    requires event { event < length guarded.now.plain.net.events }
    requires state { IsState (system_of guarded.now) (state_tree state.now) }
    requires openings { openings.now ≡ openings_from (told state.now (pos 0)) event 0 (map auto_tree guarded.now.plain.net.autos) }
    ensures { OnOk result (map reason_tree all.new ≡ map reason_tree all.old
        ++ flat_map (leaves_of (system_of guarded.now) (state_tree state.now) event) (enumerate_from 0 (zip (system_of guarded.now).automata (told_of_net (net_tree guarded.now.plain.net)).automata))) }
{
    let marks = marks_of(alloc, guarded, openings, state, event)?;
    add_marked(marks.as_slice(), all)
}

/// Marks of the values that leave their ranges in some choice that agrees with an event.
fn marks_of(
    alloc: Global,
    guarded: &Guarded,
    openings: &[Opening],
    state: &State,
    event: u32,
) -> Result<Items<Items<Items<bool>>>, Memory>
    requires state { IsState (system_of guarded.now) (state_tree state.now) }
    requires openings { openings.now ≡ openings_from (told state.now (pos 0)) event 0 (map auto_tree guarded.now.plain.net.autos) }
    ensures { IfOk result (λ all. all ≡ choices_marked (is_agreeing openings.now event) (net_tree guarded.now.plain.net) (state_tree state.now) (map choice_tree guarded.now.choices) (unmarked (map auto_tree guarded.now.plain.net.autos))) }
{
    let net = &guarded.plain.net;
    let choices = guarded.choices.as_slice();
    let mut marks = unmarked(alloc, net.autos.as_slice())?;
    for choice in choices {
        if is_agreeing(openings, choice, event) {
            mark_choice(alloc, net, choice, state, &mut marks)?;
        }
    }
    Ok(marks)
}

/// Marks of which none is set.
fn unmarked(alloc: Global, autos: &[Auto]) -> Result<Items<Items<Items<bool>>>, Memory>
    ensures { IfOk result (λ all. all ≡ unmarked (map auto_tree autos.now)) }
{
    let mut all = Items::new(alloc);
    for auto in autos {
        all.push(unmarked_rows(alloc, auto.edges.as_slice())?)?;
    }
    Ok(all)
}

fn unmarked_rows(alloc: Global, edges: &[NetEdge]) -> Result<Items<Items<bool>>, Memory>
    ensures { IfOk result (λ all. all ≡ unmarked_rows (map edge_tree edges.now)) }
{
    let mut all = Items::new(alloc);
    for edge in edges {
        all.push(Items::filled(alloc, false, edge.places.len())?)?;
    }
    Ok(all)
}
