//! Kinds of values, and what is sent along events.

/// The kind of a value: a truth value, an integer, or a literal of an enumeration, by the number of its list of literals in a
/// table. What has no value has none.
#[derive(Clone, Copy, Debug, PartialEq, Eq)]
pub enum Kind {
    Bool,
    Int,
    Enum(u32),
    None,
}

/// What is sent along an event: it is no channel, a channel without a value, or one with values of a kind.
#[derive(Clone, Copy, Debug, PartialEq, Eq)]
pub enum Channel {
    No,
    Void,
    Of(Kind),
}
