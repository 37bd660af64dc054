//! The automata, exclusions and state invariants of the net with numbers of measures in the place of expressions. They take little
//! memory, however large the net is, and their choices can be counted in the place of its choices. The first measures are those of the
//! exclusions, behind them are those of the state invariants and then those of the edges.

ghost use Rattle.std.specs.Prelude.{◌≡◌, ◌+◌, map, length, IfOk};
ghost use Rattle.cif_net.specs.View.{edge_tree, auto_tree, exclusion_tree, invariant_tree};
ghost use Rattle.cif_net_expr.specs.View.{view};
ghost use Rattle.cif_inst.specs.Outlines as outlines;

use cif_alg_measure::Measure;
use cif_base::{Items, Memory, Text};
use cif_inst_automata::{Alphabet, Used};
use cif_inst_predicates::Excluded;
use cif_net::{Auto, Exclusion, Invariant, NetEdge};
use cif_net_expr::{NetExpr, NetForm};
use cif_scope::number;
use std::alloc::Global;

/// An expression that counts as the measure with that number.
fn outline_expr(count: u32) -> NetExpr
    ensures { view result ≡ outlines.outline_expr count }
{
    NetExpr {
        form: NetForm::Alg(count),
        at: 0,
    }
}

/// An edge for a use of an event, whose guard counts as the measure with that number.
fn outline_edge(alloc: Global, count: u32, one: Used) -> NetEdge
    ensures { edge_tree result ≡ outlines.outline_edge count one }
{
    NetEdge {
        event: one.event,
        role: one.role,
        from: 0,
        to: 0,
        guard: outline_expr(count),
        sent: None,
        updates: Items::new(alloc),
        places: Items::new(alloc),
    }
}

/// An edge for each of these uses, with the numbers of measures from `first` on; and the number after them.
fn outline_edges(alloc: Global, first: u32, used: &[Used]) -> Result<(Items<NetEdge>, u32), Memory>
    ensures edges { IfOk result (λ r. map edge_tree r.0 ≡ outlines.outline_edges first used.now) }
    ensures next { IfOk result (λ r. r.1 ≡ first + length used.now) }
{
    let mut edges = Items::new(alloc);
    let mut next = first;
    for one in used {
        edges.push(outline_edge(alloc, next, *one))?;
        next = number(next as usize + 1)?;
    }
    Ok((edges, next))
}

/// The outlines of automata with these alphabets: the guard of each edge counts as the measure with its number among the edges of
/// all, of which the first has the number `first`.
pub(crate) fn all_outlines(
    alloc: Global,
    first: u32,
    alphabets: &[Alphabet],
) -> Result<Items<Auto>, Memory>
    ensures { IfOk result (λ all. map auto_tree all ≡ outlines.outlines first alphabets.now) }
{
    let mut all = Items::new(alloc);
    let mut next = first;
    for alphabet in alphabets {
        let (edges, after) = outline_edges(alloc, next, alphabet.used.as_slice())?;
        next = after;
        all.push(Auto {
            path: Text::new(alloc),
            locs: Items::new(alloc),
            first: 0,
            alphabet: alphabet.events.copy(alloc)?,
            monitors: alphabet.monitors.copy(alloc)?,
            edges,
        })?;
    }
    Ok(all)
}

/// The outlines of exclusions, which count as the measures with the numbers from 0 on.
pub(crate) fn outline_exclusions(
    alloc: Global,
    excluded: &[Excluded],
) -> Result<Items<Exclusion>, Memory>
    ensures { IfOk result (λ all. map exclusion_tree all ≡ outlines.outline_exclusions 0 excluded.now) }
{
    let mut all = Items::new(alloc);
    for (place, one) in excluded.iter().enumerate() {
        all.push(Exclusion {
            event: one.event,
            pred: outline_expr(number(place)?),
            allows: true,
        })?;
    }
    Ok(all)
}

/// The outlines of state invariants with these measures, which count as those with the numbers from `first` on.
pub(crate) fn outline_invariants(
    alloc: Global,
    first: u32,
    measures: &[Measure],
) -> Result<Items<Invariant>, Memory>
    ensures { IfOk result (λ all. map invariant_tree all ≡ outlines.outline_invariants first measures.now) }
{
    let mut all = Items::new(alloc);
    let mut next = first;
    for _one in measures {
        all.push(Invariant {
            pred: outline_expr(next),
            at: 0,
        })?;
        next = number(next as usize + 1)?;
    }
    Ok(all)
}
