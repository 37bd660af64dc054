//! The sizes and depths of the exclusions, the state invariants and the edges of a net, before any of their expressions is made.

ghost use Rattle.std.specs.Prelude.{◌≡◌, ◌++◌, map, flat_map, IfOk, OnOk};
ghost use Rattle.cif_source.specs.Source as source;
ghost use Rattle.cif_scope.specs.Written.{inside_of};
ghost use Rattle.cif_inst_names.specs.Looking.{AreNamesOf};
ghost use Rattle.cif_inst_sizes.specs.Weights.{AreWeights, alg_by};
ghost use Rattle.cif_inst.specs.Measures as measures;
ghost use Rattle.cif_inst_paths.specs.Views.{row_tree};

use cif_alg_measure::Measure;
use cif_ast::{Edge, Loc};
use cif_base::{Items, Memory};
use cif_inst_names::Looking;
use cif_inst_paths::Row;
use cif_inst_predicates::{Excluded, PredicateWeights};
use cif_inst_sizes::{Weights, edge_measure, use_measure};
use cif_scope::{Inside, number};
use std::alloc::Global;

/// Adds the measures of an edge, one for each use of an event.
fn add_edge(
    looking: &Looking<'_, '_>,
    weights: &Weights,
    component: u32,
    edge: &Edge,
    all: &mut Items<Measure>,
) -> Result<(), Memory>
    requires names { AreNamesOf looking.now }
    requires weights { AreWeights looking.now weights.now }
    ensures { OnOk result (all.new ≡ all.old ++ measures.edge_weights (alg_by looking.now weights.now) looking.now component (source.edge_tree edge.now)) }
{
    let shared = edge_measure(looking, weights, component, edge)?;
    let uses = edge.uses.as_slice();
    for event_use in uses {
        let measure = use_measure(looking, weights, component, shared, event_use)?;
        all.push(measure)?;
    }
    Ok(())
}

fn add_edges(
    looking: &Looking<'_, '_>,
    weights: &Weights,
    component: u32,
    edges: &[Edge],
    all: &mut Items<Measure>,
) -> Result<(), Memory>
    requires names { AreNamesOf looking.now }
    requires weights { AreWeights looking.now weights.now }
    ensures { OnOk result (all.new ≡ all.old ++ flat_map (measures.edge_weights (alg_by looking.now weights.now) looking.now component) (map source.edge_tree edges.now)) }
{
    for edge in edges {
        add_edge(looking, weights, component, edge, all)?;
    }
    Ok(())
}

fn add_locations(
    looking: &Looking<'_, '_>,
    weights: &Weights,
    component: u32,
    locs: &[Loc],
    all: &mut Items<Measure>,
) -> Result<(), Memory>
    requires names { AreNamesOf looking.now }
    requires weights { AreWeights looking.now weights.now }
    ensures { OnOk result (all.new ≡ all.old ++ flat_map (measures.location_weights (alg_by looking.now weights.now) looking.now component) (map source.location_tree locs.now)) }
{
    for loc in locs {
        add_edges(looking, weights, component, loc.edges.as_slice(), all)?;
    }
    Ok(())
}

/// Adds the measures of the edges of a component.
fn add_row(
    looking: &Looking<'_, '_>,
    weights: &Weights,
    component: u32,
    row: &Row,
    all: &mut Items<Measure>,
) -> Result<(), Memory>
    requires names { AreNamesOf looking.now }
    requires weights { AreWeights looking.now weights.now }
    ensures { OnOk result (all.new ≡ all.old ++ measures.body_weights (alg_by looking.now weights.now) looking.now component (inside_of row.now.inside)) }
{
    match row.inside {
        Inside::Group(_) => Ok(()),
        Inside::Automaton(body) => {
            add_locations(looking, weights, component, body.locs.as_slice(), all)
        }
    }
}

/// The measures of exclusions, in their order.
fn exclusion_measures(alloc: Global, excluded: &[Excluded]) -> Result<Items<Measure>, Memory>
    ensures { IfOk result (λ all. all ≡ map measures.measure_of excluded.now) }
{
    let mut all = Items::new(alloc);
    for one in excluded {
        all.push(one.measure)?;
    }
    Ok(all)
}

/// The measures of the exclusions, of the state invariants and of the edges of these components, an edge for each use of an event, in
/// the order of the net, by `weights` of arguments and algebraic variables. The time is linear in the source, however large the net is.
pub(crate) fn all_measures(
    alloc: Global,
    looking: &Looking<'_, '_>,
    weights: &Weights,
    predicates: &PredicateWeights,
    rows: &[Row],
) -> Result<Items<Measure>, Memory>
    requires names { AreNamesOf looking.now }
    requires weights { AreWeights looking.now weights.now }
    ensures { IfOk result (λ all. all ≡ measures.predicate_weights predicates.now ++ measures.rows_weights (alg_by looking.now weights.now) looking.now 0 (map row_tree rows.now)) }
{
    let mut all = exclusion_measures(alloc, predicates.exclusions.as_slice())?;
    all.append(predicates.invariants.copy(alloc)?)?;
    for (place, row) in rows.iter().enumerate() {
        add_row(looking, weights, number(place)?, row, &mut all)?;
    }
    Ok(all)
}
