//! The intervals of the algebraic variables of a net.

ghost use Rattle.std.specs.Prelude.{◌≡◌, map, slice_get, Some, None, IfOk, IfErr, OnOk};
ghost use Rattle.cif_base.specs.Bounds.{join_bounds};
ghost use Rattle.cif_net.specs.View.{alg_tree};
ghost use Rattle.cif_net_expr.specs.View.{view};
ghost use Rattle.cif_net_model.specs.Net.{NetAlg};
ghost use Rattle.cif_net_model.specs.Interval.{as_bounds, as_range, alg_range, join_all, range_of};
ghost use Rattle.cif_net_model.specs.Unfolding.{at_or};
ghost use Rattle.cif_alg_measure.specs.Meanings.{ranges_of};
ghost use Rattle.cif_alg_order.specs.Filled.{put, filled};
ghost use Rattle.cif_alg_order.specs.Ranged.{zero_bounds, with_table, stored_ranges, alg_bounds, join_more, joined_all, bounds_or_zero, DefinitionFault, ExprFault, FaultAlong};

use cif_alg_measure::{Declared, IntervalErr, Ranges, WidthErr, interval};
use cif_base::{Items, Iv};
use cif_net::{Alg, AlgValue, NetExpr};
use std::alloc::Global;

/// The ranges of what expressions name, with these intervals of algebraic variables, where nothing is received.
pub fn ranges_with<'a>(declared: &'a Declared, table: &'a [Iv]) -> Ranges<'a>
    ensures { ranges_of result ≡ with_table (stored_ranges declared.now) (at_or zero_bounds table.now) }
{
    Ranges {
        vars: declared.vars.as_slice(),
        inputs: declared.inputs.as_slice(),
        algs: table,
        received: Iv::new(0, 1),
    }
}

/// The intervals of algebraic variables by number, with those that their definitions name unfolded, along an order of them; or a
/// fault of a definition of the first that has one.
pub fn ranges_along(
    alloc: Global,
    algs: &[Alg],
    declared: &Declared,
    order: &[u32],
) -> Result<Items<Iv>, IntervalErr>
    ensures table { IfOk result (λ all. all ≡ filled zero_bounds (alg_bounds (stored_ranges declared.now)) (map alg_tree algs.now) order.now) }
    ensures fault { IfErr result (λ e. FaultAlong (stored_ranges declared.now) (map alg_tree algs.now) order.now e) }
{
    let mut table = Items::filled(alloc, Iv::point(0), algs.len())?;
    for number in order {
        put_range(&mut table, algs, declared, *number)?;
    }
    Ok(table)
}

/// Finds the interval of one of them, by the intervals of those that its definitions name.
fn put_range(
    table: &mut Items<Iv>,
    algs: &[Alg],
    declared: &Declared,
    number: u32,
) -> Result<(), WidthErr>
    ensures table { OnOk result (table.new ≡ put zero_bounds (alg_bounds (stored_ranges declared.now)) (map alg_tree algs.now) table.old number) }
    ensures fault { IfErr result (λ e. (a : NetAlg) × (slice_get (map alg_tree algs.now) number ≡ Some a)
        × DefinitionFault (with_table (stored_ranges declared.now) (at_or zero_bounds table.old)) a e) }
{
    let at = number as usize;
    if let Some(alg) = algs.get(at) {
        let range = alg_range(alg, &ranges_with(declared, table.as_slice()))?;
        if at < table.len() {
            table.set(at, range);
        }
    }
    Ok(())
}

fn alg_range(alg: &Alg, ranges: &Ranges) -> Result<Iv, WidthErr>
    ensures range { IfOk result (λ a. a ≡ as_bounds (alg_range (range_of (ranges_of ranges.now)) (alg_tree alg.now))) }
    ensures fault { IfErr result (λ e. DefinitionFault (ranges_of ranges.now) (alg_tree alg.now) e) }
{
    match &alg.value {
        AlgValue::One(value) => interval(ranges, value),
        AlgValue::ByLoc { auto: _, values } => range_of_all(values.as_slice(), ranges),
    }
}

/// The least interval round those of all, and that of 0 alone where there is none.
fn range_of_all(all: &[NetExpr], ranges: &Ranges) -> Result<Iv, WidthErr>
    ensures range { IfOk result (λ a. a ≡ as_bounds (join_all (map (range_of (ranges_of ranges.now)) (map view all.now)))) }
    ensures fault { IfErr result (λ e. ExprFault (ranges_of ranges.now) (map view all.now) e) }
{
    let mut found = None;
    for expr in all {
        found = Some(joined(found, interval(ranges, expr)?));
    }
    Ok(or_zero(found))
}

fn joined(found: Option<Iv>, range: Iv) -> Iv
    ensures { result ≡ join_more found (as_range range) }
{
    match found {
        Some(other) => Iv::new(other.lo().min(range.lo()), other.hi().max(range.hi())),
        None => range,
    }
}

fn or_zero(found: Option<Iv>) -> Iv
    ensures { result ≡ bounds_or_zero found }
{
    match found {
        Some(range) => range,
        None => Iv::point(0),
    }
}
