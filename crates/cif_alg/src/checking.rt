//! The rules on algebraic variables, intervals and sizes of a net.

ghost use Rattle.std.specs.Prelude.{◌≡◌, nat_lt, true, false, ◌||◌, map, IfOk, IfErr};
ghost use Rattle.std.specs.List.{list_all};
ghost use Rattle.cif_net_model.specs.Counts.{most_nodes, most_depth, is_too_large};
ghost use Rattle.cif_net_model.specs.Rules.{IsAcyclic, evaluated};
ghost use Rattle.cif_net.specs.View.{net_tree, auto_tree, exclusion_tree, invariant_tree, event_tree};
ghost use Rattle.cif_alg_measure.specs.Meanings.{table_measure};
ghost use Rattle.cif_alg_measure.specs.Rules.{declared_divides, declared_is_narrow};
ghost use Rattle.cif_alg_measure.specs.Sizes.{AreMeasured};
ghost use Rattle.cif_alg_order.specs.Orders.{IsOrderOf};
ghost use Rattle.cif_alg.specs.Keeps.{KeepsExpressions, due};
ghost use Rattle.cif_alg.specs.Sizes.{sizes_added};
ghost use Rattle.cif_alg.specs.Tallies.{counted};

use crate::counting::{choice_nodes, with_sizes};
use crate::error::AlgErr;
use crate::making::is_made;
use cif_alg_measure::{MOST_DEPTH, MOST_NODES, Measure, net_depth};
use cif_alg_order::{
    algebraic_measures, check_algebraic_intervals, order_algebraic, ordered_nets_are_acyclic,
};
use cif_base::{Items, Memory};
use cif_net::Net;
use std::alloc::Global;

/// An order of the algebraic variables of a net in which none depends on itself, no divisor may be 0, the interval of each part of an
/// expression is in 64 bits, and which is within the limits of sizes, with algebraic variables unfolded; or the first of these that
/// fails: see `AlgErr`.
pub fn check_net(alloc: Global, net: &Net) -> Result<Items<u32>, AlgErr>
    ensures order { IfOk result (λ order. IsOrderOf (net_tree net.now) order) }
    ensures divides { IfOk result (λ order. list_all (declared_divides (net_tree net.now)) (evaluated (net_tree net.now)) ≡ true) }
    ensures narrow { IfOk result (λ order. list_all (declared_is_narrow (net_tree net.now)) (evaluated (net_tree net.now)) ≡ true) }
    ensures small { IfOk result (λ order. is_too_large (net_tree net.now) ≡ false) }
    ensures keeps { IfOk result (λ order. KeepsExpressions (net_tree net.now)) }
    ensures refused { IfErr result (λ e. due (net_tree net.now) e) }
{
    let order = order_algebraic(alloc, net)?;
    check_algebraic_intervals(alloc, net, order.as_slice())?;
    check_counts(alloc, net, order.as_slice())?;
    Ok(order)
}

/// Whether the net is within the limits, along an order of its algebraic variables. Memory is said to be out where it is, and edges that
/// no choice takes are too large to be made.
fn check_counts(alloc: Global, net: &Net, order: &[u32]) -> Result<(), AlgErr>
    requires order { IsOrderOf (net_tree net.now) order.now }
    ensures small { IfOk result (λ done. is_too_large (net_tree net.now) ≡ false) }
    ensures refused { IfErr result (λ e. due (net_tree net.now) e) }
{
    ordered_nets_are_acyclic();
    let algs = algebraic_measures(alloc, net, order)?;
    check_size(alloc, net, algs.as_slice())?;
    if is_made(net, algs.as_slice()) {
        Ok(())
    } else {
        Err(AlgErr::Memory)
    }
}

/// Whether the choices of a net have no more nodes than the limit, and its expressions are no deeper than theirs.
fn check_size(alloc: Global, net: &Net, algs: &[Measure]) -> Result<(), AlgErr>
    requires measured { AreMeasured algs.now (net_tree net.now) }
    requires acyclic { IsAcyclic (net_tree net.now) }
    ensures small { IfOk result (λ done. is_too_large (net_tree net.now) ≡ false) }
    ensures refused { IfErr result (λ e. due (net_tree net.now) e) }
{
    let nodes = nodes_of(alloc, net, algs)?;
    let depth = net_depth(algs, net);
    if is_over(nodes, depth) {
        return Err(AlgErr::TooLarge {
            nodes: nodes as u32,
            depth: depth as u32,
        });
    }
    Ok(())
}

/// The nodes of the choices of a net and of its algebraic variables, where the count stops one past the limit.
fn nodes_of(alloc: Global, net: &Net, algs: &[Measure]) -> Result<u64, Memory>
    ensures { IfOk result (λ nodes. nodes ≡ sizes_added (counted (table_measure algs.now) (map auto_tree net.now.autos)
        (map exclusion_tree net.now.exclusions) (map invariant_tree net.now.invariants) (map event_tree net.now.events)) algs.now) }
{
    let choices = choice_nodes(
        alloc,
        net.autos.as_slice(),
        net.exclusions.as_slice(),
        net.invariants.as_slice(),
        net.events.as_slice(),
        algs,
    )?;
    Ok(with_sizes(choices, algs))
}

/// Whether one of the counts is past its limit.
fn is_over(nodes: u64, depth: u64) -> bool
    ensures { result ≡ (nat_lt most_nodes nodes || nat_lt most_depth depth) }
{
    nodes > MOST_NODES || depth > MOST_DEPTH
}
