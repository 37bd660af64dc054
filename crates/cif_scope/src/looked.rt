//! Where a name leads, by numbers.

/// A name of a body's scope.
#[derive(Clone, Copy, Debug, PartialEq, Eq)]
pub struct Slot {
    pub body: u32,
    pub slot: u32,
}

/// Where the parts of a name so far lead: to a slot of a body; to nothing, where a part is declared nowhere; or a part with
/// further parts behind it is no component and no instance.
#[derive(Clone, Copy, Debug, PartialEq, Eq)]
pub enum Looked {
    At(u32, u32),
    Missing,
    Blocked,
}
