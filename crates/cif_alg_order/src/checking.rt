//! The rules on divisors that may be 0 and on values wider than 64 bits, for nets with algebraic variables.

ghost use Rattle.std.specs.Prelude.{◌≡◌, true, IfOk, IfErr};
ghost use Rattle.std.specs.List.{list_all};
ghost use Rattle.cif_net_model.specs.Rules.{evaluated};
ghost use Rattle.cif_net.specs.View.{net_tree};
ghost use Rattle.cif_alg_measure.specs.Rules.{declared_divides, declared_is_narrow, NoZeroDivisor, NoneTooWide, due};
ghost use Rattle.cif_alg_order.specs.Orders.{IsOrderOf};

use crate::ranging::{ranges_along, ranges_with};
use cif_alg_measure::{IntervalErr, check_widths, declared_ranges};
use cif_net::{Net, nets_are_nets};
use std::alloc::Global;

/// Whether no divisor may be 0, and the interval of each part is in 64 bits, in all expressions that a net evaluates, over the
/// declared ranges, with algebraic variables unfolded along an order of them. The time is linear in the expressions.
pub fn check_algebraic_intervals(alloc: Global, net: &Net, order: &[u32]) -> Result<(), IntervalErr>
    requires { IsOrderOf (net_tree net.now) order.now }
    ensures divides { IfOk result (λ done. list_all (declared_divides (net_tree net.now)) (evaluated (net_tree net.now)) ≡ true) }
    ensures narrow { IfOk result (λ done. list_all (declared_is_narrow (net_tree net.now)) (evaluated (net_tree net.now)) ≡ true) }
    ensures no_zero { IfOk result (λ done. NoZeroDivisor (net_tree net.now)) }
    ensures fit { IfOk result (λ done. NoneTooWide (net_tree net.now)) }
    ensures refused { IfErr result (λ e. due (net_tree net.now) e) }
{
    nets_are_nets();
    let declared = declared_ranges(alloc, net)?;
    let table = ranges_along(alloc, net.algs.as_slice(), &declared, order)?;
    check_widths(&ranges_with(&declared, table.as_slice()), net)?;
    Ok(())
}
