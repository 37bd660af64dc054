//! What each body declares, as far as kinds go, as references into the tree.

use cif_ast::{Chan, Ident, TypeUse};
use cif_base::Items;

/// What a name of a scope declares. The name of a type and a literal have the number of that type.
#[derive(Clone, Copy, Drop)]
pub enum Slot<'a> {
    Type(u32),
    Literal(u32),
    /// Something whose values are of a type.
    Value(&'a TypeUse),
    Location,
    /// An event, with what is sent along it.
    Event(&'a Chan),
    /// What has no value, and is no type and no event.
    Other,
}

/// A type that has a name: another name for a type that is written in a body, or an enumeration.
#[derive(Clone, Copy, Drop)]
pub enum NamedType<'a> {
    Synonym { body: u32, ty: &'a TypeUse },
    Enumeration { literals: &'a [Ident] },
}

/// The types that have names, numbered through all bodies in text order, and for each body and each name of its scope a slot.
#[derive(Drop)]
pub struct Layout<'a> {
    pub types: Vec<NamedType<'a>>,
    pub slots: Items<Items<Slot<'a>>>,
}
