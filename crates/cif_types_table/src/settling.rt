//! The kinds of the types that have names, each after the one that it names.

ghost use Rattle.std.specs.Prelude.{◌≡◌, ℕ, IfOk};
ghost use Rattle.cif_order.specs.Graph.{AreInside, IsCyclic, IsOrder};
ghost use Rattle.cif_types_table.specs.Types as typing;

use crate::layout::NamedType;
use crate::naming::Naming;
use cif_base::{Items, Memory};
use cif_order::{OrderErr, order};
use cif_scope::number;
use cif_types_kinds::Kind;
use std::alloc::Global;

/// An order of types of which none needs itself.
pub fn type_order(alloc: Global, needs: &[Items<u32>]) -> Result<Items<u32>, Memory>
    requires inside { AreInside needs.now }
    requires acyclic { (named : ℕ) → IsCyclic needs.now named → ⊥ }
    ensures { IfOk result (λ all. IsOrder needs.now all) }
{
    number(needs.len())?;
    match order(alloc, needs) {
        Ok(all) => Ok(all),
        Err(OrderErr::Cycle { .. }) => unreachable!(),
        Err(OrderErr::Memory) => Err(Memory),
    }
}

impl<'a> Naming<'a> {
    /// Gives a synonym the kind of its type.
    fn settle_one(&self, types: &[NamedType<'_>], named: u32, kinds: &mut Items<Kind>)
        ensures { kinds.new ≡ typing.settle_one self.now.scopes.now self.now.slots.now types.now kinds.old named }
    {
        if let Some(NamedType::Synonym { body, ty }) = types.get(named as usize) {
            let kind = self.kind_of_type(kinds.as_slice(), *body, ty);
            if (named as usize) < kinds.len() {
                kinds.set(named as usize, kind);
            }
        }
    }

    /// Gives each synonym the kind of its type, in this order.
    pub fn settle(&self, types: &[NamedType<'_>], order: &[u32], kinds: &mut Items<Kind>)
        ensures { kinds.new ≡ typing.settled self.now.scopes.now self.now.slots.now types.now kinds.old order.now }
    {
        for named in order {
            self.settle_one(types, *named, kinds);
        }
    }
}
