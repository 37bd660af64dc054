//! The search that puts nodes in order, with a path of its own in place of recursion, since a chain of needs may be as long as
//! there are nodes.

ghost use Rattle.std.specs.Prelude.{◌≡◌, ◌↔◌, ℕ, ◌<◌, List, [], ◌∷◌, ◌++◌, length, replicate, slice_get, slice_set, IsTrue, IfOk, OnOk, OnSome, Some, Err};
ghost use Rattle.cif_system.specs.Words.{Chain};
ghost use Rattle.cif_order.specs.Graph.{needs_of, Needs, AreInside};
ghost use Rattle.cif_order.specs.Search.{IsSound, AreKept, GoesOn};
ghost use Rattle.cif_order.specs.declared.search.Mark.TheVariants.{New, Open, Done};
ghost use Rattle.cif_order.specs.declared.error.OrderErr.TheVariants.{Cycle};

use crate::error::OrderErr;
use crate::graph::needs_at;
use cif_base::{Items, Memory};
use std::alloc::Global;

/// How far the search is with a node.
#[derive(Clone, Copy)]
pub enum Mark {
    New,
    /// On the path, with this many of its needs done.
    Open(usize),
    Done,
}

/// A mark for each node, the open nodes from the first to the last that was opened, and the nodes that are done.
#[derive(Drop)]
pub struct Search {
    marks: Items<Mark>,
    path: Items<u32>,
    order: Items<u32>,
}

impl Search {
    /// A search in which as many nodes are new.
    pub fn new(alloc: Global, count: usize) -> Result<Search, Memory>
        ensures marks { IfOk result (λ s. s.marks ≡ replicate count New) }
        ensures path { IfOk result (λ s. s.path ≡ []) }
        ensures order { IfOk result (λ s. s.order ≡ []) }
    {
        Ok(Search {
            marks: Items::filled(alloc, Mark::New, count)?,
            path: Items::new(alloc),
            order: Items::new(alloc),
        })
    }

    /// The nodes that are done, in the order in which they were.
    pub fn into_order(self) -> Items<u32>
        ensures { result ≡ self.order }
    {
        let Search { order, .. } = self;
        order
    }

    pub fn is_new(&self, node: u32) -> bool
        requires { node < length self.now.marks }
        ensures { IsTrue result ↔ (slice_get self.now.marks node ≡ Some New) }
    {
        matches!(self.mark(node), Mark::New)
    }

    /// Puts a new node and all that it needs in order.
    pub fn visit(&mut self, needs: &[Items<u32>], root: u32) -> Result<(), OrderErr>
        requires inside { AreInside needs.now }
        requires sound { IsSound needs.now self.old.marks self.old.path self.old.order }
        requires empty { self.old.path ≡ [] }
        requires new { slice_get self.old.marks root ≡ Some New }
        ensures sound { OnOk result (IsSound needs.now self.new.marks self.new.path self.new.order) }
        ensures empty { OnOk result (self.new.path ≡ []) }
        ensures kept { OnOk result (AreKept self.old.marks self.new.marks) }
        ensures begun { OnOk result (slice_get self.new.marks root ≡ Some New → ⊥) }
        ensures cycle { (n : ℕ) → result ≡ Err (Cycle n) → Chain (Needs needs.now) n n }
    {
        self.open(root)?;
        while let Some(node) = self.path.last() {
            let node = *node;
            self.step(needs, node)?;
        }
        Ok(())
    }

    /// Goes on from the last node of the path: to a need, over a need that is done, or back.
    fn step(&mut self, needs: &[Items<u32>], node: u32) -> Result<(), OrderErr>
        requires inside { AreInside needs.now }
        requires sound { IsSound needs.now self.old.marks self.old.path self.old.order }
        requires last { (front : List ℕ) × (self.old.path ≡ front ++ node ∷ []) }
        ensures step { OnOk result (GoesOn needs.now self.old.marks self.new.marks self.new.path self.new.order) }
        ensures cycle { (n : ℕ) → result ≡ Err (Cycle n) → Chain (Needs needs.now) n n }
    {
        let Mark::Open(done) = self.mark(node) else {
            unreachable!()
        };
        let Some(need) = need_at(needs, node, done) else {
            self.finish(node)?;
            return Ok(());
        };
        match self.mark(need) {
            Mark::New => self.open(need)?,
            Mark::Open(_) => return Err(OrderErr::Cycle { node: need }),
            Mark::Done => self.marks.set(node as usize, Mark::Open(done + 1)),
        }
        Ok(())
    }

    fn mark(&self, node: u32) -> Mark
        requires { node < length self.now.marks }
        ensures { slice_get self.now.marks node ≡ Some result }
    {
        self.marks.as_slice()[node as usize]
    }

    /// Puts a node at the end of the path.
    fn open(&mut self, node: u32) -> Result<(), Memory>
        requires { node < length self.old.marks }
        ensures marks { OnOk result (self.new.marks ≡ slice_set self.old.marks node (Open 0)) }
        ensures path { OnOk result (self.new.path ≡ self.old.path ++ node ∷ []) }
        ensures order { self.new.order ≡ self.old.order }
    {
        self.path.push(node)?;
        self.marks.set(node as usize, Mark::Open(0));
        Ok(())
    }

    /// Puts the last node of the path at the end of the order.
    fn finish(&mut self, node: u32) -> Result<(), Memory>
        requires { node < length self.old.marks }
        ensures marks { OnOk result (self.new.marks ≡ slice_set self.old.marks node Done) }
        ensures path { (front : List ℕ) → self.old.path ≡ front ++ node ∷ [] → OnOk result (self.new.path ≡ front) }
        ensures order { OnOk result (self.new.order ≡ self.old.order ++ node ∷ []) }
    {
        self.order.push(node)?;
        self.path.pop();
        self.marks.set(node as usize, Mark::Done);
        Ok(())
    }
}

/// What stands at a place in the list of a node's needs.
fn need_at(needs: &[Items<u32>], node: u32, at: usize) -> Option<u32>
    requires { node < length needs.now }
    ensures need { result ≡ slice_get (needs_of needs.now node) at }
    ensures within { OnSome result (at < usize.MAX) }
{
    let list = needs_at(needs, node);
    if at < list.len() {
        Some(list[at])
    } else {
        None
    }
}
