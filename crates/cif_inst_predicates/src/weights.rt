//! What the exclusions and the state invariants weigh in the net, before any of their predicates is made. An exclusion of many
//! events stands in the net once for each.

ghost use Rattle.std.specs.Prelude.{◌≡◌, ◌<◌, ◌++◌, map, flat_map, length, IfOk, OnOk};
ghost use Rattle.cif_ast.specs.View.{view};
ghost use Rattle.cif_source.specs.Objects.{components_of};
ghost use Rattle.cif_inst_model.specs.Flat.{net_of_source};
ghost use Rattle.cif_inst_names.specs.Looking.{AreNamesOf, source_for, component_at};
ghost use Rattle.cif_inst_sizes.specs.Weights.{AreWeights, alg_by, expression_measure};
ghost use Rattle.cif_inst_paths.specs.Names.{AreMatchedNames};
ghost use Rattle.cif_inst_paths.specs.Rows.{rows_of};
ghost use Rattle.cif_inst_paths.specs.Views.{row_tree};
ghost use Rattle.cif_inst_predicates.specs.Predicates.{stated_exclusions, stated_invariants};
ghost use Rattle.cif_inst_predicates.specs.Stated.{StandBelow};
ghost use Rattle.cif_inst_predicates.specs.Views.{stated_tree};
ghost use Rattle.cif_inst_predicates.specs.Weights as weighed;

use crate::stated::{Stated, all_stated};
use cif_alg_measure::Measure;
use cif_ast::{Expr, Inv, Name};
use cif_base::{Items, Memory};
use cif_inst_names::Looking;
use cif_inst_paths::Row;
use cif_inst_sizes::{Weights, value_measure};
use std::alloc::Global;

/// An exclusion before it is made: its event, and the measure of its predicate.
#[derive(Clone, Copy, Debug, Drop)]
pub struct Excluded {
    pub event: u32,
    pub measure: Measure,
}

/// The exclusions before they are made, and the measures of the state invariants.
#[derive(Drop)]
pub struct PredicateWeights {
    pub exclusions: Items<Excluded>,
    pub invariants: Items<Measure>,
}

/// Adds an exclusion of each of these events, by the predicate that each has.
fn add_each(
    looking: &Looking<'_, '_>,
    weights: &Weights,
    component: u32,
    p: &Expr,
    events: &[Name],
    all: &mut Items<Excluded>,
) -> Result<(), Memory>
    requires names { AreNamesOf looking.now }
    requires component { component < length (components_of (source_for looking.now)) }
    requires weights { AreWeights looking.now weights.now }
    ensures { let c = component_at looking.now component in
        OnOk result (all.new ≡ all.old ++ map (weighed.excluded_by c (expression_measure (alg_by looking.now weights.now) c (view p.now))) events.now) }
{
    let measure = value_measure(looking, weights, component, p)?;
    for name in events {
        all.push(Excluded {
            event: looking.event(component, name),
            measure,
        })?;
    }
    Ok(())
}

/// Adds the exclusions that an invariant of the source is.
fn add_exclusions(
    looking: &Looking<'_, '_>,
    weights: &Weights,
    one: &Stated<'_>,
    all: &mut Items<Excluded>,
) -> Result<(), Memory>
    requires names { AreNamesOf looking.now }
    requires component { one.now.component < length (components_of (source_for looking.now)) }
    requires weights { AreWeights looking.now weights.now }
    ensures { OnOk result (all.new ≡ all.old ++ map (weighed.excluded_of (alg_by looking.now weights.now)) (stated_exclusions looking.now (stated_tree one.now))) }
{
    let component = one.component;
    match one.inv {
        Inv::State(_) => Ok(()),
        Inv::Needs { events, p } => {
            add_each(looking, weights, component, p, events.as_slice(), all)
        }
        Inv::Disables { p, events } => {
            add_each(looking, weights, component, p, events.as_slice(), all)
        }
    }
}

/// Adds the state invariant that an invariant of the source is, if it is one.
fn add_invariant(
    looking: &Looking<'_, '_>,
    weights: &Weights,
    one: &Stated<'_>,
    all: &mut Items<Measure>,
) -> Result<(), Memory>
    requires names { AreNamesOf looking.now }
    requires weights { AreWeights looking.now weights.now }
    ensures { OnOk result (all.new ≡ all.old ++ map (weighed.invariant_weight (alg_by looking.now weights.now)) (stated_invariants looking.now (stated_tree one.now))) }
{
    match one.inv {
        Inv::State(p) => all.push(value_measure(looking, weights, one.component, p)?),
        Inv::Needs { .. } | Inv::Disables { .. } => Ok(()),
    }
}

fn all_exclusions(
    alloc: Global,
    looking: &Looking<'_, '_>,
    weights: &Weights,
    found: &[Stated<'_>],
) -> Result<Items<Excluded>, Memory>
    requires names { AreNamesOf looking.now }
    requires weights { AreWeights looking.now weights.now }
    requires below { StandBelow looking.now (map stated_tree found.now) }
    ensures { IfOk result (λ all. all ≡ map (weighed.excluded_of (alg_by looking.now weights.now)) (flat_map (stated_exclusions looking.now) (map stated_tree found.now))) }
{
    let mut all = Items::new(alloc);
    for one in found {
        add_exclusions(looking, weights, one, &mut all)?;
    }
    Ok(all)
}

fn all_invariants(
    alloc: Global,
    looking: &Looking<'_, '_>,
    weights: &Weights,
    found: &[Stated<'_>],
) -> Result<Items<Measure>, Memory>
    requires names { AreNamesOf looking.now }
    requires weights { AreWeights looking.now weights.now }
    ensures { IfOk result (λ all. all ≡ map (weighed.invariant_weight (alg_by looking.now weights.now)) (flat_map (stated_invariants looking.now) (map stated_tree found.now))) }
{
    let mut all = Items::new(alloc);
    for one in found {
        add_invariant(looking, weights, one, &mut all)?;
    }
    Ok(all)
}

/// What the exclusions and the state invariants of these components weigh, by the weights of arguments and algebraic variables. The time
/// is linear in the source and its components, however large the net is.
pub fn predicate_weights(
    alloc: Global,
    looking: &Looking<'_, '_>,
    weights: &Weights,
    rows: &[Row<'_>],
) -> Result<PredicateWeights, Memory>
    requires names { AreMatchedNames looking.now }
    requires weights { AreWeights looking.now weights.now }
    requires rows { map row_tree rows.now ≡ rows_of (source_for looking.now) }
    ensures { IfOk result (λ all. weighed.AreWeightsOf (alg_by looking.now weights.now) (net_of_source (source_for looking.now)) all) }
{
    let found = all_stated(alloc, rows)?;
    Ok(PredicateWeights {
        exclusions: all_exclusions(alloc, looking, weights, found.as_slice())?,
        invariants: all_invariants(alloc, looking, weights, found.as_slice())?,
    })
}
