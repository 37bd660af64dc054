//! The types that names denote, and which types need which.

ghost use Rattle.std.specs.Prelude.{◌≡◌, Some, IfOk};
ghost use Rattle.cif_source.specs.Source.{type_tree};
ghost use Rattle.cif_types_table.specs.Types as typing;

use crate::layout::{NamedType, Slot};
use cif_ast::{Name, TypeUse};
use cif_base::{Items, Memory};
use cif_scope::{Looked, Scopes};
use cif_types_kinds::Kind;
use std::alloc::Global;

/// What names of types are looked up in: the scopes of a source, and what each body declares.
#[derive(Clone, Copy)]
pub struct Naming<'a> {
    pub scopes: &'a Scopes,
    pub slots: &'a [Items<Slot<'a>>],
}

fn type_in(row: &Items<Slot<'_>>, slot: u32) -> Option<u32>
    ensures { result ≡ typing.type_among (Some row.now) slot }
{
    match row.get(slot as usize)? {
        Slot::Type(named) => Some(*named),
        Slot::Literal(_) | Slot::Value(_) | Slot::Location | Slot::Event(_) | Slot::Other => None,
    }
}

fn type_at(slots: &[Items<Slot<'_>>], found: Looked) -> Option<u32>
    ensures { result ≡ typing.type_at slots.now found }
{
    match found {
        Looked::At(body, slot) => type_in(slots.get(body as usize)?, slot),
        Looked::Missing | Looked::Blocked => None,
    }
}

fn kind_among(kinds: &[Kind], named: Option<u32>) -> Kind
    ensures { result ≡ typing.kind_among kinds.now named }
{
    match named {
        Some(named) => match kinds.get(named as usize) {
            Some(kind) => *kind,
            None => Kind::None,
        },
        None => Kind::None,
    }
}

impl<'a> Naming<'a> {
    /// The number of the type that a name in a body denotes.
    fn type_named(&self, body: u32, name: &Name) -> Option<u32>
        ensures { result ≡ typing.type_named self.now.scopes.now self.now.slots.now body name.now }
    {
        type_at(self.slots, self.scopes.look(true, body, name))
    }

    /// The number of the type that a type in a body names.
    fn type_in_type(&self, body: u32, ty: &TypeUse) -> Option<u32>
        ensures { result ≡ typing.type_in_type self.now.scopes.now self.now.slots.now body (type_tree ty.now) }
    {
        match ty {
            TypeUse::Named(name) => self.type_named(body, name),
            TypeUse::Bool | TypeUse::Int | TypeUse::Range(..) => None,
        }
    }

    fn type_needs(&self, alloc: Global, named: &NamedType<'_>) -> Result<Items<u32>, Memory>
        ensures { IfOk result (λ needs. needs ≡ typing.type_needs self.now.scopes.now self.now.slots.now named.now) }
    {
        match named {
            NamedType::Synonym { body, ty } => match self.type_in_type(*body, ty) {
                Some(need) => Items::only(alloc, need),
                None => Ok(Items::new(alloc)),
            },
            NamedType::Enumeration { .. } => Ok(Items::new(alloc)),
        }
    }

    /// For each type that has a name the one that it names.
    pub fn type_graph(
        &self,
        alloc: Global,
        types: &[NamedType<'_>],
    ) -> Result<Items<Items<u32>>, Memory>
        ensures { IfOk result (λ all. all ≡ typing.type_graph self.now.scopes.now self.now.slots.now types.now) }
    {
        let mut all = Items::new(alloc);
        for named in types {
            all.push(self.type_needs(alloc, named)?)?;
        }
        Ok(all)
    }

    /// The kind of a type in a body, where the types that have names have these kinds.
    pub fn kind_of_type(&self, kinds: &[Kind], body: u32, ty: &TypeUse) -> Kind
        ensures { result ≡ typing.kind_of_type self.now.scopes.now self.now.slots.now kinds.now body (type_tree ty.now) }
    {
        match ty {
            TypeUse::Bool => Kind::Bool,
            TypeUse::Int | TypeUse::Range(..) => Kind::Int,
            TypeUse::Named(name) => kind_among(kinds, self.type_named(body, name)),
        }
    }
}
