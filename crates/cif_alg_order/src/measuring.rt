//! The measures of the algebraic variables of a net.

ghost use Rattle.std.specs.Prelude.{◌≡◌, map, length, IfOk};
ghost use Rattle.cif_net.specs.View.{net_tree, alg_tree};
ghost use Rattle.cif_net_expr.specs.View.{view};
ghost use Rattle.cif_net_model.specs.Counts.{alg_measure, by_location, no_form};
ghost use Rattle.cif_alg_measure.specs.Meanings.{as_measure, stopped_measure, table_measure};
ghost use Rattle.cif_alg_measure.specs.Sizes.{AreMeasured};
ghost use Rattle.cif_alg_order.specs.Filled.{put, filled};
ghost use Rattle.cif_alg_order.specs.Measured.{unmeasured, alg_measured, exprs_measured};
ghost use Rattle.cif_alg_order.specs.Orders.{IsOrderOf};

use cif_alg_measure::{Measure, expr_measure};
use cif_base::{Items, Memory};
use cif_net::{Alg, AlgValue, Net, NetExpr};
use std::alloc::Global;

/// The measures of the algebraic variables of a net by number, with those that their definitions name unfolded, along an order of
/// them. Their counts stop one past the limits. The time is linear in the definitions.
pub fn algebraic_measures(alloc: Global, net: &Net, order: &[u32]) -> Result<Items<Measure>, Memory>
    requires { IsOrderOf (net_tree net.now) order.now }
    ensures { IfOk result (λ all. AreMeasured all (net_tree net.now)) }
{
    measures_along(alloc, net.algs.as_slice(), order)
}

fn measures_along(alloc: Global, algs: &[Alg], order: &[u32]) -> Result<Items<Measure>, Memory>
    ensures { IfOk result (λ all. all ≡ filled unmeasured alg_measured (map alg_tree algs.now) order.now) }
{
    let mut table = Items::filled(alloc, Measure::none(), algs.len())?;
    for number in order {
        put_measure(&mut table, algs, *number);
    }
    Ok(table)
}

/// Measures one of them, by the measures of those that its definitions name.
fn put_measure(table: &mut Items<Measure>, algs: &[Alg], number: u32)
    ensures { table.new ≡ put unmeasured alg_measured (map alg_tree algs.now) table.old number }
{
    let at = number as usize;
    if let Some(alg) = algs.get(at) {
        let measure = measure_of(alg, table.as_slice());
        if at < table.len() {
            table.set(at, measure);
        }
    }
}

fn measure_of(alg: &Alg, algs: &[Measure]) -> Measure
    ensures { result ≡ stopped_measure (alg_measure (table_measure algs.now) (alg_tree alg.now)) }
{
    match &alg.value {
        AlgValue::One(value) => expr_measure(algs, value),
        AlgValue::ByLoc { auto: _, values } => {
            chosen(values.len(), measure_of_all(values.as_slice(), algs))
        }
    }
}

/// The measure of one of so many definitions by location, which have this measure side by side: an `if` with a test of the
/// location for each but the last.
fn chosen(count: usize, all: Measure) -> Measure
    ensures { result ≡ stopped_measure (by_location count (as_measure all)) }
{
    if count < 2 {
        return all.stopped();
    }
    Measure {
        size: all.size.saturating_add(count as u64),
        depth: all.depth.saturating_add(1),
    }
    .stopped()
}

fn measure_of_all(all: &[NetExpr], algs: &[Measure]) -> Measure
    ensures { result ≡ exprs_measured (table_measure algs.now) (stopped_measure no_form) (map view all.now) }
{
    let mut found = Measure::none();
    for expr in all {
        found = found.beside(expr_measure(algs, expr));
    }
    found
}
