//! The lowest node that reaches itself.

ghost use Rattle.std.specs.Prelude.{◌≡◌, ◌+◌, ◌<◌, ◌≤◌, ◌^◌, [], ◌∷◌, ◌++◌, length, replicate, slice_get, slice_set, IfOk, OnOk, MatchBool, Some, None};
ghost use Rattle.cif_order.specs.Graph.{AreInside, IsCyclic, IsLowest};
ghost use Rattle.cif_order.specs.Spread.{IsMet, IsKnown, AreEarlier, IsSpread, StaysSpread, IsDone, visits_left};

use crate::error::OrderErr;
use crate::graph::needs_at;
use crate::ordering::order;
use cif_base::{Items, Memory};
use std::alloc::Global;

/// The lowest node that reaches itself through needs, if there is one. Where there is none the time is linear in nodes and
/// needs, and otherwise it is linear for each node up to that one.
pub fn lowest(alloc: Global, needs: &[Items<u32>]) -> Result<Option<u32>, Memory>
    requires few { length needs.now < 2 ^ 32 }
    requires inside { AreInside needs.now }
    ensures { IfOk result (λ found. IsLowest needs.now found) }
{
    match order(alloc, needs) {
        Ok(_order) => Ok(None),
        Err(OrderErr::Memory) => Err(Memory),
        Err(OrderErr::Cycle { .. }) => first_cyclic(alloc, needs),
    }
}

/// The same by a search from each node.
fn first_cyclic(alloc: Global, needs: &[Items<u32>]) -> Result<Option<u32>, Memory>
    requires few { length needs.now < 2 ^ 32 }
    requires inside { AreInside needs.now }
    ensures { IfOk result (λ found. IsLowest needs.now found) }
{
    let mut spread = Spread::new(alloc, needs.len())?;
    for start in 0..needs.len() {
        if spread.reaches_itself(needs, start as u32)? {
            return Ok(Some(start as u32));
        }
    }
    Ok(None)
}

/// At each node the start of the latest search that met it, and the nodes whose needs that search has still to meet.
#[derive(Drop)]
struct Spread {
    met: Items<Option<u32>>,
    waiting: Items<u32>,
}

impl Spread {
    fn new(alloc: Global, count: usize) -> Result<Spread, Memory>
        ensures { IfOk result (λ s. s.met ≡ replicate count None) }
    {
        Ok(Spread {
            met: Items::filled(alloc, None, count)?,
            waiting: Items::new(alloc),
        })
    }

    /// Whether needs lead from the node back to it.
    fn reaches_itself(&mut self, needs: &[Items<u32>], start: u32) -> Result<bool, Memory>
        requires inside { AreInside needs.now }
        requires start { start < length needs.now }
        requires sized { length self.old.met ≡ length needs.now }
        requires earlier { AreEarlier start self.old.met }
        ensures { IfOk result (λ cyclic.
            MatchBool cyclic (IsCyclic needs.now start) (IsDone needs.now start self.new.met)) }
    {
        self.waiting.clear();
        self.waiting.push(start)?;
        while let Some(node) = self.waiting.pop() {
            if self.meet_all(needs, node, start)? {
                return Ok(true);
            }
        }
        Ok(false)
    }

    /// Meets the needs of a node that has waited, up to the start, and says whether it is among them.
    fn meet_all(&mut self, needs: &[Items<u32>], node: u32, start: u32) -> Result<bool, Memory>
        requires inside { AreInside needs.now }
        requires start { start < length needs.now }
        requires spread { IsSpread needs.now start self.old.met (node ∷ self.old.waiting) }
        ensures { IfOk result (λ cyclic. MatchBool cyclic (IsCyclic needs.now start)
            (StaysSpread needs.now start self.new.met self.new.waiting (visits_left start self.old.met self.old.waiting))) }
    {
        let list = needs_at(needs, node);
        for need in list {
            if *need == start {
                return Ok(true);
            }
            self.meet(*need, start)?;
        }
        Ok(false)
    }

    /// Meets a node, whose needs then wait unless the search has met it before.
    fn meet(&mut self, node: u32, start: u32) -> Result<(), Memory>
        requires { node < length self.old.met }
        ensures met { OnOk result (self.new.met ≡ slice_set self.old.met node (Some start)) }
        ensures again { IsMet start self.old.met node → OnOk result (self.new.waiting ≡ self.old.waiting) }
        ensures first { (IsMet start self.old.met node → ⊥) → OnOk result (self.new.waiting ≡ self.old.waiting ++ node ∷ []) }
    {
        let was = self.met.replace(node as usize, Some(start));
        if was != Some(start) {
            self.waiting.push(node)?;
        }
        Ok(())
    }
}
