//! Plain nets.

ghost use Rattle.std.specs.Prelude.{◌≡◌, true, false, IfOk, IfErr};
ghost use Rattle.std.specs.List.{list_all};
ghost use Rattle.cif_net_model.specs.Counts.{is_too_large};
ghost use Rattle.cif_net_model.specs.Inline.{Unfolds};
ghost use Rattle.cif_net_model.specs.Meaning.{system_of_net};
ghost use Rattle.cif_net_model.specs.Rules.{evaluated};
ghost use Rattle.cif_net.specs.View.{net_tree};
ghost use Rattle.cif_alg_measure.specs.Rules.{declared_divides, declared_is_narrow};
ghost use Rattle.cif_alg_order.specs.Orders.{IsOrderOf};
ghost use Rattle.cif_alg.specs.Keeps.{KeepsAlgebraic, due};

use crate::checking::check_net;
use crate::error::AlgErr;
use crate::invariants::check_invariants;
use cif_alg_unfold::unfold;
use cif_net::{Net, Plain, nets_are_nets};
use cif_net_laws::{unfolded_nets_are_plain, unfolded_nets_have_plain_expressions};
use std::alloc::Global;

/// The net with algebraic variables replaced by their definitions (CIF 3 language reference, "Algebraic variables"), which means the
/// same. It is refused where one depends on itself, where a divisor may be 0, where a part of an expression may leave 64 bits,
/// where its choices have too many nodes or an expression is too deep, and where a state invariant reads an input or does not
/// hold in the initial state: see `AlgErr`.
pub fn inline(alloc: Global, net: Net) -> Result<Plain, AlgErr>
    ensures unfolds { IfOk result (λ p. Unfolds (net_tree net) (net_tree p.net)) }
    ensures same { IfOk result (λ p. system_of_net (net_tree p.net) ≡ system_of_net (net_tree net)) }
    ensures keeps { IfOk result (λ p. KeepsAlgebraic (net_tree net)) }
    ensures refused { IfErr result (λ e. due (net_tree net) e) }
{
    let order = check_net(alloc, &net)?;
    settle(alloc, net, order.as_slice())
}

/// The net with algebraic variables replaced, of a net that `check_net` let pass with this order of them. It is refused where a
/// state invariant reads an input or does not hold in the initial state.
pub fn settle(alloc: Global, net: Net, order: &[u32]) -> Result<Plain, AlgErr>
    requires order { IsOrderOf (net_tree net) order.now }
    requires divides { list_all (declared_divides (net_tree net)) (evaluated (net_tree net)) ≡ true }
    requires narrow { list_all (declared_is_narrow (net_tree net)) (evaluated (net_tree net)) ≡ true }
    requires small { is_too_large (net_tree net) ≡ false }
    ensures unfolds { IfOk result (λ p. Unfolds (net_tree net) (net_tree p.net)) }
    ensures same { IfOk result (λ p. system_of_net (net_tree p.net) ≡ system_of_net (net_tree net)) }
    ensures keeps { IfOk result (λ p. KeepsAlgebraic (net_tree net)) }
    ensures refused { IfErr result (λ e. due (net_tree net) e) }
{
    nets_are_nets();
    unfolded_nets_have_plain_expressions();
    unfolded_nets_are_plain();
    let unfolded = unfold(alloc, net, order)?;
    check_invariants(alloc, &unfolded)?;
    Ok(Plain { net: unfolded })
}
