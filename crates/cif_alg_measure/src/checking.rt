//! The rules on divisors that may be 0 and on values wider than 64 bits, for nets without algebraic variables.

ghost use Rattle.std.specs.Prelude.{◌≡◌, true, [], IfOk, IfErr};
ghost use Rattle.std.specs.List.{list_all};
ghost use Rattle.cif_net_model.specs.Rules.{evaluated, is_plain_expr};
ghost use Rattle.cif_net.specs.View.{net_tree};
ghost use Rattle.cif_alg_measure.specs.Rules.{declared_divides, declared_is_narrow, NoZeroDivisor, NoneTooWide, due};

use crate::declared::declared_ranges;
use crate::error::IntervalErr;
use crate::operators::truths;
use crate::ranges::Ranges;
use crate::widths::check_widths;
use cif_net::{Net, nets_are_nets};
use std::alloc::Global;

/// Whether no divisor may be 0, and the interval of each part is in 64 bits, in all expressions that a net evaluates, over the
/// declared ranges. No expression of such a net names an algebraic variable, so with this each is as in a plain net.
pub fn check_intervals(alloc: Global, net: &Net) -> Result<(), IntervalErr>
    requires { (net_tree net.now).algs ≡ [] }
    ensures divides { IfOk result (λ done. list_all (declared_divides (net_tree net.now)) (evaluated (net_tree net.now)) ≡ true) }
    ensures narrow { IfOk result (λ done. list_all (declared_is_narrow (net_tree net.now)) (evaluated (net_tree net.now)) ≡ true) }
    ensures plain { IfOk result (λ done. list_all (is_plain_expr (net_tree net.now)) (evaluated (net_tree net.now)) ≡ true) }
    ensures no_zero { IfOk result (λ done. NoZeroDivisor (net_tree net.now)) }
    ensures fit { IfOk result (λ done. NoneTooWide (net_tree net.now)) }
    ensures refused { IfErr result (λ e. due (net_tree net.now) e) }
{
    nets_are_nets();
    let declared = declared_ranges(alloc, net)?;
    let ranges = Ranges {
        vars: declared.vars.as_slice(),
        inputs: declared.inputs.as_slice(),
        algs: &[],
        received: truths(),
    };
    check_widths(&ranges, net)?;
    Ok(())
}
