//! The types of values, and runs of bytes in a text.

/// The bytes of a text from the place `from`, counted from 0, up to but not including the place `to`.
#[derive(Clone, Copy, Debug, PartialEq, Eq)]
pub struct Span {
    pub from: u32,
    pub to: u32,
}

/// The type of a value: a boolean, a whole number from `lo` to `hi`, or an enumeration of `size` literals, which
/// stand for the numbers from 0 to `size` - 1 (CIF 3 language reference, "Types").
#[derive(Clone, Copy, Debug, PartialEq, Eq)]
pub enum Ty {
    Bool,
    Int { lo: i64, hi: i64 },
    Enum { size: u32 },
}
