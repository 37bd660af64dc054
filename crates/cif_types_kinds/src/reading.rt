//! The kinds of names in a body.

ghost use Rattle.std.specs.Prelude.{◌≡◌, IfOk};
ghost use Rattle.cif_source.specs.Lookup.{found, in_scope};
ghost use Rattle.cif_source.specs.Kinds.{kind_at};
ghost use Rattle.cif_source.specs.Demands.{event_channel};
ghost use Rattle.cif_types_kinds.specs.Tables.{kind_for, channel_for};
ghost use Rattle.cif_types_kinds.specs.Readings as reading;

use crate::kind::{Channel, Kind};
use crate::table::KindTable;
use cif_ast::{Ident, Name, Spec};
use cif_base::Memory;
use cif_scope::Scopes;
use std::alloc::Global;

/// A body whose expressions are read, by its number, with the scopes of its source and the kinds of what that declares, and the
/// kind of `?` there.
#[derive(Clone, Copy)]
pub struct Reading<'a> {
    pub spec: &'a Spec,
    pub scopes: &'a Scopes,
    pub table: &'a KindTable,
    pub body: u32,
    pub received: Kind,
}

impl<'a> Reading<'a> {
    /// The kind of what a name in the body finds.
    pub fn kind_of_name(&self, alloc: Global, name: &Name) -> Result<Kind, Memory>
        requires { reading.IsReading self.now }
        ensures { IfOk result (λ k. kind_for (reading.lists_in self.now) k ≡ kind_at (found (reading.component_in self.now) name.now)) }
    {
        let found = self.scopes.find(alloc, self.body, name)?;
        Ok(self.table.kind_found(found))
    }

    /// What is sent along the event that a name in the body finds.
    pub fn channel_of_name(&self, alloc: Global, name: &Name) -> Result<Channel, Memory>
        requires { reading.IsReading self.now }
        ensures { IfOk result (λ h. channel_for (reading.lists_in self.now) h
            ≡ event_channel (reading.component_in self.now) name.now) }
    {
        let found = self.scopes.find(alloc, self.body, name)?;
        Ok(self.table.channel_found(found))
    }

    /// The kind of what the body itself declares under a name.
    pub fn kind_of_own(&self, name: &Ident) -> Kind
        requires { reading.IsReading self.now }
        ensures { kind_for (reading.lists_in self.now) result
            ≡ kind_at (in_scope (reading.component_in self.now) name.now.text) }
    {
        let slot = self.scopes.own(self.body, &name.text);
        self.table.kind_owned(self.body, slot)
    }
}
