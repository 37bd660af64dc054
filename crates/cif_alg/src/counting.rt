//! The nodes of the choices of all events, without listing the choices.

ghost use Rattle.std.specs.Prelude.{◌≡◌, map, IfOk};
ghost use Rattle.cif_net.specs.View.{auto_tree, edge_tree, event_tree, exclusion_tree, invariant_tree};
ghost use Rattle.cif_alg_measure.specs.Meanings.{table_measure};
ghost use Rattle.cif_alg.specs.Sizes.{sizes_added};
ghost use Rattle.cif_alg.specs.Tallies.{is_channel_event, tallies_nodes, edge_nodes, exclusion_nodes, invariants_nodes, opened_for, edges_noted, stays_noted, closed_for, tallied, all_tallied, exclusions_noted, counted};

use crate::limit::sum;
use crate::tally::Tally;
use cif_alg_measure::{Measure, edge_size, exclusion_size, invariants_size};
use cif_base::{Items, Memory};
use cif_net::{Auto, Event, Exclusion, Invariant, NetChan, NetEdge};
use std::alloc::Global;

/// The nodes of the choices of all events, for the automata, exclusions, state invariants and events of a net. An algebraic
/// variable counts as the measure with its number in `algs`, and the count stops one past the limit. So the nodes of a net can be
/// told from automata that have measures in the place of its expressions. The time is linear in what alphabets, monitors, edges,
/// exclusions, invariants and events there are, with their expressions.
pub fn choice_nodes(
    alloc: Global,
    autos: &[Auto],
    exclusions: &[Exclusion],
    invariants: &[Invariant],
    events: &[Event],
    algs: &[Measure],
) -> Result<u64, Memory>
    ensures { IfOk result
        (λ nodes. nodes ≡ counted (table_measure algs.now) (map auto_tree autos.now) (map exclusion_tree exclusions.now)
        (map invariant_tree invariants.now) (map event_tree events.now)) }
{
    let besides = invariants_nodes(invariants, algs);
    let mut tallies = Items::filled(alloc, Tally::new(besides), events.len())?;
    tally_all(&mut tallies, autos, algs);
    note_exclusions(&mut tallies, exclusions, algs);
    Ok(all_nodes(events, tallies.as_slice()))
}

/// So many nodes with the sizes of algebraic variables, where the count stops one past the limit.
pub fn with_sizes(choices: u64, algs: &[Measure]) -> u64
    ensures { result ≡ sizes_added choices algs.now }
{
    let mut nodes = choices;
    for alg in algs {
        nodes = sum(nodes, alg.size);
    }
    nodes
}

/// Those of all events, by their tallies.
fn all_nodes(events: &[Event], tallies: &[Tally]) -> u64
    ensures { result ≡ tallies_nodes 0 (map event_tree events.now) tallies.now }
{
    let mut nodes = 0;
    for (event, tally) in events.iter().zip(tallies) {
        nodes = sum(nodes, tally.nodes(is_channel(event)));
    }
    nodes
}

fn is_channel(event: &Event) -> bool
    ensures { result ≡ is_channel_event (event_tree event.now) }
{
    match event.chan {
        NetChan::No => false,
        NetChan::Void | NetChan::Of(_) => true,
    }
}

fn tally_all(tallies: &mut Items<Tally>, autos: &[Auto], algs: &[Measure])
    ensures { tallies.new ≡ all_tallied (table_measure algs.now) (map auto_tree autos.now) tallies.old }
{
    for auto in autos {
        tally(tallies, auto, algs);
    }
}

/// An automaton is counted for each event of its alphabet.
fn tally(tallies: &mut Items<Tally>, auto: &Auto, algs: &[Measure])
    ensures { tallies.new ≡ tallied (table_measure algs.now) (auto_tree auto.now) tallies.old }
{
    open_for(tallies, auto.alphabet.as_slice());
    note_edges(tallies, auto.edges.as_slice(), algs);
    note_stays(tallies, auto.monitors.as_slice());
    close_for(tallies, auto.alphabet.as_slice());
}

fn open_for(tallies: &mut Items<Tally>, events: &[u32])
    ensures { tallies.new ≡ opened_for events.now tallies.old }
{
    for event in events {
        let at = *event as usize;
        if let Some(tally) = tallies.get(at).copied() {
            tallies.set(at, tally.opened());
        }
    }
}

fn note_edges(tallies: &mut Items<Tally>, edges: &[NetEdge], algs: &[Measure])
    ensures { tallies.new ≡ edges_noted (table_measure algs.now) (map edge_tree edges.now) tallies.old }
{
    for edge in edges {
        let at = edge.event as usize;
        if let Some(tally) = tallies.get(at).copied() {
            tallies.set(at, tally.with_edge(edge.role, edge_nodes(edge, algs)));
        }
    }
}

/// The nodes of an edge as an option: the party, and those of its expressions.
#[tactic(auto, unfolding(crate::specs::Tallies::edge_nodes))]
fn edge_nodes(edge: &NetEdge, algs: &[Measure]) -> u64
    ensures { result ≡ edge_nodes (table_measure algs.now) (edge_tree edge.now) }
{
    sum(1, edge_size(algs, edge))
}

fn note_stays(tallies: &mut Items<Tally>, events: &[u32])
    ensures { tallies.new ≡ stays_noted events.now tallies.old }
{
    for event in events {
        let at = *event as usize;
        if let Some(tally) = tallies.get(at).copied() {
            tallies.set(at, tally.with_stay());
        }
    }
}

/// An event that stands twice in an alphabet is closed once.
fn close_for(tallies: &mut Items<Tally>, events: &[u32])
    ensures { tallies.new ≡ closed_for events.now tallies.old }
{
    for event in events {
        let at = *event as usize;
        if let Some(tally) = tallies.get(at).copied() {
            tallies.set(at, tally.closed());
        }
    }
}

fn note_exclusions(tallies: &mut Items<Tally>, exclusions: &[Exclusion], algs: &[Measure])
    ensures { tallies.new ≡ exclusions_noted (table_measure algs.now) (map exclusion_tree exclusions.now) tallies.old }
{
    for exclusion in exclusions {
        let at = exclusion.event as usize;
        if let Some(tally) = tallies.get(at).copied() {
            tallies.set(at, tally.with_besides(exclusion_nodes(exclusion, algs)));
        }
    }
}

/// The nodes of an exclusion, those of its predicate.
#[tactic(auto, unfolding(crate::specs::Tallies::exclusion_nodes))]
fn exclusion_nodes(exclusion: &Exclusion, algs: &[Measure]) -> u64
    ensures { result ≡ exclusion_nodes (table_measure algs.now) (exclusion_tree exclusion.now) }
{
    exclusion_size(algs, exclusion)
}

/// The nodes of all state invariants, those of their predicates.
#[tactic(auto, unfolding(crate::specs::Tallies::invariants_nodes))]
fn invariants_nodes(invariants: &[Invariant], algs: &[Measure]) -> u64
    ensures { result ≡ invariants_nodes (table_measure algs.now) (map invariant_tree invariants.now) }
{
    invariants_size(algs, invariants)
}
