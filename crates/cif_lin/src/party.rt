//! An automaton that takes part in an event.

use cif_base::Items;

/// An automaton, by its number, and what it may do: edges of it, by number, and to stay.
#[derive(Drop)]
pub struct Party {
    pub number: u32,
    pub options: Items<Option<u32>>,
}
