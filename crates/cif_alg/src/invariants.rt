//! The rules on state invariants, asked of a net in which algebraic variables are replaced by their definitions.

ghost use Rattle.std.specs.Prelude.{◌≡◌, pos, true, map, IfOk, IfErr};
ghost use Rattle.std.specs.List.{list_all};
ghost use Rattle.cif_net_expr.specs.View.{view};
ghost use Rattle.cif_net_model.specs.Rules.{evaluated, invariant_keeps, is_plain_expr};
ghost use Rattle.cif_net.specs.View.{invariant_tree, net_tree};
ghost use Rattle.cif_net_model.specs.Safe.{IsSafe};
ghost use Rattle.cif_value.specs.Settings.{told};
ghost use Rattle.cif_alg.specs.Invariants.{IsBroken, checked, all_checked, AreSafe};

use crate::error::AlgErr;
use cif_net::{Invariant, Net, State, nets_are_nets};
use cif_value::{holds, reads_input};
use std::alloc::Global;

/// Whether each state invariant of a net without algebraic variables in its expressions reads no input and holds in the initial
/// state; or the first that doesn't.
pub(crate) fn check_invariants(alloc: Global, net: &Net) -> Result<(), AlgErr>
    requires { list_all (is_plain_expr (net_tree net.now)) (evaluated (net_tree net.now)) ≡ true }
    ensures keep { IfOk result (λ done. list_all (invariant_keeps (net_tree net.now)) (net_tree net.now).invariants ≡ true) }
    ensures broken { IfErr result (λ e. IsBroken (net_tree net.now) e) }
{
    nets_are_nets();
    let first = State::initial(alloc, net)?;
    check_all(net.invariants.as_slice(), &first)
}

fn check_all(all: &[Invariant], first: &State) -> Result<(), AlgErr>
    requires { AreSafe first.now (map invariant_tree all.now) }
    ensures { result ≡ all_checked first.now (map invariant_tree all.now) }
{
    for invariant in all {
        check_invariant(invariant, first)?;
    }
    Ok(())
}

fn check_invariant(invariant: &Invariant, first: &State) -> Result<(), AlgErr>
    requires { IsSafe (told first.now (pos 0)) (view invariant.now.pred) }
    ensures { result ≡ checked first.now (invariant_tree invariant.now) }
{
    let at = invariant.at;
    if reads_input(&invariant.pred) {
        return Err(AlgErr::InvariantReadsInput { at });
    }
    if holds(&invariant.pred, first) {
        Ok(())
    } else {
        Err(AlgErr::InvariantFalse { at })
    }
}
