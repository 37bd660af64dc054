//! The components of a source.

use crate::children::Children;
use cif_base::Items;

/// A name that the scope of a component declares: the number of the component, and the slot in its scope.
#[derive(Clone, Copy, Debug, PartialEq, Eq, Hash)]
pub struct Place {
    pub component: u32,
    pub slot: u32,
}

/// A component: the number of its body as written, and the name under which it stands in another component, which the
/// specification doesn't have. An instance stands where its arguments are given.
#[derive(Clone, Copy, Debug, PartialEq, Eq, Drop)]
pub struct Component {
    pub body: u32,
    pub stands: Option<Place>,
}

/// The components of a source, numbered in text order, each before those in it, and an instance where it stands. The
/// specification is 0.
#[derive(Drop)]
pub struct Components {
    pub(crate) all: Items<Component>,
    /// The outer component of each, in which its body is written: for an instance the one in which its definition stands.
    pub(crate) outers: Items<Option<u32>>,
    pub(crate) children: Children,
}
