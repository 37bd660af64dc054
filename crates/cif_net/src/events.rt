//! The events of a net (CIF 3 language reference, "Events", "Channels").

use cif_base::{Text, Ty};

/// An event, with the channel that it is.
#[derive(Debug, Drop)]
pub struct Event {
    pub path: Text,
    pub class: Class,
    pub chan: NetChan,
}

/// The class of an event: neither of the two, controllable, or uncontrollable.
#[derive(Clone, Copy, Debug, PartialEq, Eq)]
pub enum Class {
    Plain,
    Con,
    Unc,
}

/// The channel of an event: none, one without a value, or one for the values of a type.
#[derive(Clone, Copy, Debug, PartialEq, Eq)]
pub enum NetChan {
    No,
    Void,
    Of(Ty),
}
