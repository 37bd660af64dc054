//! The table of kinds, and of what is sent along events.

ghost use Rattle.std.specs.Prelude.{◌≡◌, IfOk};
ghost use Rattle.cif_ast.specs.Countable.{IsCountable};
ghost use Rattle.cif_source.specs.Source.{channel_tree, source_of};
ghost use Rattle.cif_scope.specs.Scopes.{AreScopesOf};
ghost use Rattle.cif_types_kinds.specs.Tables.{AreKindsIn};
ghost use Rattle.cif_types_table.specs.Types as typing;

use crate::layout::Slot;
use crate::lists::number_lists;
use crate::naming::Naming;
use crate::settling::type_order;
use crate::walking::layout;
use cif_ast::{Chan, Spec};
use cif_base::{Items, Memory};
use cif_scope::{Scopes, number, written_bodies};
use cif_types_kinds::{Channel, Kind, KindTable};
use std::alloc::Global;

impl<'a> Naming<'a> {
    /// The kind of what a slot of a body declares.
    fn kind_in_slot(&self, kinds: &[Kind], body: u32, slot: Slot<'_>) -> Kind
        ensures { result ≡ typing.kind_in_slot self.now.scopes.now self.now.slots.now kinds.now body slot.entry }
    {
        match slot {
            Slot::Type(_) | Slot::Event(_) | Slot::Other => Kind::None,
            Slot::Literal(named) => match kinds.get(named as usize) {
                Some(kind) => *kind,
                None => Kind::None,
            },
            Slot::Value(ty) => self.kind_of_type(kinds, body, ty),
            Slot::Location => Kind::Bool,
        }
    }

    fn body_kinds(
        &self,
        alloc: Global,
        kinds: &[Kind],
        body: u32,
        row: &[Slot<'_>],
    ) -> Result<Items<Kind>, Memory>
        ensures { IfOk result (λ all. all ≡ typing.body_kinds self.now.scopes.now self.now.slots.now kinds.now body row.now) }
    {
        let mut all = Items::new(alloc);
        for slot in row {
            all.push(self.kind_in_slot(kinds, body, *slot))?;
        }
        Ok(all)
    }

    /// The kinds of what all bodies declare.
    fn all_kinds(&self, alloc: Global, kinds: &[Kind]) -> Result<Items<Items<Kind>>, Memory>
        ensures { IfOk result (λ all. all ≡ typing.all_kinds self.now.scopes.now self.now.slots.now kinds.now 0 self.now.slots.now) }
    {
        let mut all = Items::new(alloc);
        for (body, row) in self.slots.iter().enumerate() {
            all.push(self.body_kinds(alloc, kinds, number(body)?, row.as_slice())?)?;
        }
        Ok(all)
    }

    fn channel_of(&self, kinds: &[Kind], body: u32, chan: &Chan) -> Channel
        ensures { result ≡ typing.channel_of self.now.scopes.now self.now.slots.now kinds.now body (channel_tree chan.now) }
    {
        match chan {
            Chan::No => Channel::No,
            Chan::Void => Channel::Void,
            Chan::Of(ty) => Channel::Of(self.kind_of_type(kinds, body, ty)),
        }
    }

    /// What is sent along what a slot of a body declares.
    fn channel_in_slot(&self, kinds: &[Kind], body: u32, slot: Slot<'_>) -> Channel
        ensures { result ≡ typing.channel_in_slot self.now.scopes.now self.now.slots.now kinds.now body slot.entry }
    {
        match slot {
            Slot::Event(chan) => self.channel_of(kinds, body, chan),
            Slot::Type(_) | Slot::Literal(_) | Slot::Value(_) | Slot::Location | Slot::Other => {
                Channel::No
            }
        }
    }

    fn body_channels(
        &self,
        alloc: Global,
        kinds: &[Kind],
        body: u32,
        row: &[Slot<'_>],
    ) -> Result<Items<Channel>, Memory>
        ensures { IfOk result (λ all. all ≡ typing.body_channels self.now.scopes.now self.now.slots.now kinds.now body row.now) }
    {
        let mut all = Items::new(alloc);
        for slot in row {
            all.push(self.channel_in_slot(kinds, body, *slot))?;
        }
        Ok(all)
    }

    /// What is sent along what all bodies declare.
    fn all_channels(&self, alloc: Global, kinds: &[Kind]) -> Result<Items<Items<Channel>>, Memory>
        ensures { IfOk result (λ all. all ≡ typing.all_channels self.now.scopes.now self.now.slots.now kinds.now 0 self.now.slots.now) }
    {
        let mut all = Items::new(alloc);
        for (body, row) in self.slots.iter().enumerate() {
            all.push(self.body_channels(alloc, kinds, number(body)?, row.as_slice())?)?;
        }
        Ok(all)
    }
}

/// The kinds of all that a source declares, and what is sent along its events. The kind of a type that has a name is read from a
/// table, so that no chain of such names is followed anew for each use.
pub fn kind_table(alloc: Global, spec: &Spec, scopes: &Scopes) -> Result<KindTable, Memory>
    requires countable { IsCountable spec.now }
    requires scopes { AreScopesOf (source_of spec.now) scopes.now }
    ensures { IfOk result (λ tb. AreKindsIn (source_of spec.now) tb) }
{
    let written = written_bodies(alloc, spec)?;
    let layout = layout(alloc, written.as_slice())?;
    let mut listed = number_lists(alloc, layout.types.as_slice())?;
    let naming = Naming {
        scopes,
        slots: layout.slots.as_slice(),
    };
    let graph = naming.type_graph(alloc, layout.types.as_slice())?;
    let order = type_order(alloc, graph.as_slice())?;
    naming.settle(layout.types.as_slice(), order.as_slice(), &mut listed.kinds);
    let kinds = naming.all_kinds(alloc, listed.kinds.as_slice())?;
    let channels = naming.all_channels(alloc, listed.kinds.as_slice())?;
    Ok(KindTable {
        kinds,
        channels,
        lists: listed.lists,
    })
}
