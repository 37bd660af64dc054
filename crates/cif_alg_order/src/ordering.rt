//! The order of the algebraic variables of a net.

ghost use Rattle.std.specs.Prelude.{◌<◌, ◌^◌, length, IfOk, IfErr};
ghost use Rattle.cif_net.specs.View.{net_tree};
ghost use Rattle.cif_order.specs.Graph.{AreInside, IsCyclic};
ghost use Rattle.cif_alg_order.specs.Orders.{IsOrderOf, due, graph_due};

use crate::error::AlgebraicErr;
use crate::naming::named_by_each;
use cif_base::Items;
use cif_net::{Net, nets_are_nets};
use cif_order::{OrderErr, lowest, order};
use std::alloc::Global;

/// The algebraic variables of a net by number, each once and after all that its definitions name, or the one with the lowest
/// number that depends on itself. Where none does the time is linear in their definitions.
pub fn order_algebraic(alloc: Global, net: &Net) -> Result<Items<u32>, AlgebraicErr>
    ensures order { IfOk result (λ order. IsOrderOf (net_tree net.now) order) }
    ensures refused { IfErr result (λ e. due (net_tree net.now) e) }
{
    nets_are_nets();
    let needs = named_by_each(alloc, net.algs.as_slice())?;
    match order(alloc, needs.as_slice()) {
        Ok(order) => Ok(order),
        Err(OrderErr::Cycle { node }) => Err(lowest_cycle(alloc, needs.as_slice(), node)),
        Err(OrderErr::Memory) => Err(AlgebraicErr::Memory),
    }
}

/// The lowest node that reaches itself, as some node does.
fn lowest_cycle(alloc: Global, needs: &[Items<u32>], node: u32) -> AlgebraicErr
    requires few { length needs.now < 2 ^ 32 }
    requires inside { AreInside needs.now }
    requires cyclic { IsCyclic needs.now node }
    ensures { graph_due needs.now result }
{
    match lowest(alloc, needs) {
        Ok(Some(alg)) => AlgebraicErr::Cycle { alg },
        Ok(None) => unreachable!(),
        Err(_memory) => AlgebraicErr::Memory,
    }
}
