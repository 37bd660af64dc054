//! The order of a graph of needs.

ghost use Rattle.std.specs.Prelude.{◌≡◌, ℕ, ◌<◌, ◌^◌, length, IfOk, Err};
ghost use Rattle.cif_system.specs.Words.{Chain};
ghost use Rattle.cif_order.specs.Graph.{Needs, AreInside, IsOrder};
ghost use Rattle.cif_order.specs.declared.error.OrderErr.TheVariants.{Cycle};

use crate::error::OrderErr;
use crate::search::Search;
use cif_base::Items;
use std::alloc::Global;

/// The nodes, each once and after all that it needs, or a node that reaches itself through needs. `needs` has for each node the
/// nodes that it needs, of which there are fewer than 2^32. The time is linear in nodes and needs, and the stack doesn't grow
/// with them.
pub fn order(alloc: Global, needs: &[Items<u32>]) -> Result<Items<u32>, OrderErr>
    requires few { length needs.now < 2 ^ 32 }
    requires inside { AreInside needs.now }
    ensures order { IfOk result (λ order. IsOrder needs.now order) }
    ensures cycle { (n : ℕ) → result ≡ Err (Cycle n) → Chain (Needs needs.now) n n }
{
    let mut search = Search::new(alloc, needs.len())?;
    for root in 0..needs.len() {
        if search.is_new(root as u32) {
            search.visit(needs, root as u32)?;
        }
    }
    Ok(search.into_order())
}
