//! How deep the expressions of a net are.

ghost use Rattle.std.specs.Prelude.{◌≡◌, [], map, max};
ghost use Rattle.cif_net_model.specs.Counts.{all_beside, measure_by, depth, stopped, most_depth};
ghost use Rattle.cif_net_model.specs.Exprs.{all_exprs};
ghost use Rattle.cif_net.specs.View.{net_tree, auto_tree, edge_tree, exclusion_tree, alg_tree};
ghost use Rattle.cif_net_expr.specs.View.{view};
ghost use Rattle.cif_alg_measure.specs.Meanings.{as_measure, stopped_measure, table_measure, stopped_table};
ghost use Rattle.cif_alg_measure.specs.Sizes.{AreMeasured, exprs_counted, edges_counted, autos_counted, exclusions_counted, alg_counted, algs_counted, net_counted, table_counted};

use crate::measures::{Measure, measure_of};
use crate::sizes::{edge_measure, invariants_measure};
use cif_net::{Alg, AlgValue, Auto, Exclusion, Net, NetEdge, NetExpr};

/// The depth of a net without algebraic variables.
pub fn depth_of(net: &Net) -> u64
    requires { (net_tree net.now).algs ≡ [] }
    ensures { result ≡ stopped most_depth (depth (net_tree net.now)) }
{
    net_depth(&[], net)
}

/// The depth of a net: the greatest one of the expressions that it evaluates and of the algebraic variables, whose measures are
/// given. It stops one past its limit.
pub fn net_depth(algs: &[Measure], net: &Net) -> u64
    ensures value { result ≡ stopped most_depth (max
        (all_beside (map (measure_by (table_measure algs.now)) (all_exprs (net_tree net.now)))).depth
        (all_beside (map as_measure algs.now)).depth) }
    ensures of_net { AreMeasured algs.now (net_tree net.now) → result ≡ stopped most_depth (depth (net_tree net.now)) }
{
    table_measured(algs, net_measure(net, Measure::none(), algs)).depth
}

/// The measure of what was measured before, and of these.
fn table_measured(all: &[Measure], before: Measure) -> Measure
    ensures { result ≡ table_counted before all.now }
{
    let mut found = before;
    for measure in all {
        found = found.beside(*measure);
    }
    found
}

fn net_measure(net: &Net, before: Measure, algs: &[Measure]) -> Measure
    ensures { result ≡ net_counted (stopped_table algs.now) before (net_tree net.now) }
{
    let edges = autos_measure(net.autos.as_slice(), before, algs);
    let exclusions = exclusions_measure(net.exclusions.as_slice(), edges, algs);
    let invariants = invariants_measure(net.invariants.as_slice(), exclusions, algs);
    algs_measure(net.algs.as_slice(), invariants, algs)
}

fn autos_measure(all: &[Auto], before: Measure, algs: &[Measure]) -> Measure
    ensures { result ≡ autos_counted (stopped_table algs.now) before (map auto_tree all.now) }
{
    let mut found = before;
    for auto in all {
        found = edges_measure(auto.edges.as_slice(), found, algs);
    }
    found
}

fn edges_measure(all: &[NetEdge], before: Measure, algs: &[Measure]) -> Measure
    ensures { result ≡ edges_counted (stopped_table algs.now) before (map edge_tree all.now) }
{
    let mut found = before;
    for edge in all {
        found = edge_measure(edge, found, algs);
    }
    found
}

fn exclusions_measure(all: &[Exclusion], before: Measure, algs: &[Measure]) -> Measure
    ensures { result ≡ exclusions_counted (stopped_table algs.now) before (map exclusion_tree all.now) }
{
    let mut found = before;
    for exclusion in all {
        found = found.beside(measure_of(&exclusion.pred, algs));
    }
    found
}

fn algs_measure(all: &[Alg], before: Measure, algs: &[Measure]) -> Measure
    ensures { result ≡ algs_counted (stopped_table algs.now) before (map alg_tree all.now) }
{
    let mut found = before;
    for alg in all {
        found = alg_measure(alg, found, algs);
    }
    found
}

fn alg_measure(alg: &Alg, before: Measure, algs: &[Measure]) -> Measure
    ensures { result ≡ alg_counted (stopped_table algs.now) before (alg_tree alg.now) }
{
    match &alg.value {
        AlgValue::One(value) => before.beside(measure_of(value, algs)),
        AlgValue::ByLoc { auto: _, values } => exprs_measure(values.as_slice(), before, algs),
    }
}

fn exprs_measure(all: &[NetExpr], before: Measure, algs: &[Measure]) -> Measure
    ensures { result ≡ exprs_counted (stopped_table algs.now) before (map view all.now) }
{
    let mut found = before;
    for expr in all {
        found = found.beside(measure_of(expr, algs));
    }
    found
}
