//! The scopes of a source.

use crate::looked::Slot;
use crate::table::Table;
use cif_base::Items;

/// The scopes of a source: the names that each body declares, what they are, and the definitions of its instances. Bodies, those
/// of definitions included, are numbered in text order, and the specification is 0. The slots of a body number the names that
/// its scope declares, its parameters first.
#[derive(Drop)]
pub struct Scopes {
    pub(crate) table: Table,
    pub(crate) definitions: Items<Items<Option<u32>>>,
}

/// What a name finds: the slot of a body whose scope declares it, and the instances that the name passes, in order.
#[derive(Debug, Drop)]
pub struct Found {
    pub body: u32,
    pub slot: u32,
    pub through: Items<Slot>,
}
