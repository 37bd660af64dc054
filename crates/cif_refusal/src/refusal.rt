//! The causes for which a source is refused, and what is told of each.

ghost use Rattle.std.specs.Prelude.{◌≡◌, IfOk};
ghost use Rattle.cif_refusal.specs.Texts as texts;

use crate::texts::{joined, with_number, with_numbers};
use cif_base::{Memory, Text};
use std::alloc::Global;

/// Why a source is refused, with the byte place in it, counted from 0.
#[derive(Clone, Copy, Debug, PartialEq, Eq)]
pub enum Refusal {
    /// No token, blank or comment begins there.
    BadByte { at: u32 },
    /// The number that begins there exceeds 2147483647.
    NumberTooBig { at: u32 },
    /// The comment that `/*` begins there has no end.
    OpenComment { at: u32 },
    /// The tokens are no source: the one that begins there can't be there, or what begins there is too deep; or the source
    /// ends there too early.
    NotRead { at: u32 },
    /// A part of the name that begins there is declared nowhere where it is looked up.
    Unknown { at: u32 },
    /// One scope declares one name at both places, of which `first` is the earlier.
    Duplicate { at: u32, first: u32 },
    /// The name that begins there denotes something of another sort than its position asks, or the instance of that name has
    /// another number of arguments than its definition has parameters.
    WrongKind { at: u32 },
    /// The definition, type or constant whose declared name begins there reaches itself.
    DefinitionCycle { at: u32 },
    /// The expression that begins there has another kind than its position asks for, or the use of an event there does not fit what
    /// is sent along it.
    Mismatch { at: u32 },
    /// The name that begins there stands in a bound of a type, the value of a constant or a first value, and is no constant and no
    /// literal.
    NotConstant { at: u32 },
    /// The automaton whose declared name begins there has so many initial locations, and not one.
    Initials { at: u32, count: u32 },
    /// The variable that is assigned there isn't declared in the automaton itself.
    NotOwn { at: u32 },
    /// An earlier update of the same list assigns the variable there too.
    AssignedTwice { at: u32 },
    /// The algebraic variable whose declared name begins there has so many definitions, and not one.
    Equations { at: u32, count: u32 },
    /// The name that begins there is that of an event outside the alphabet of its automaton.
    AlphabetLacks { at: u32 },
    /// In an automaton with the name that begins there an event has two roles.
    RoleMixed { at: u32 },
    /// Components, declarations, locations and edges are too many. The count stops one past the limit.
    TooManyObjects { count: u32 },
    /// In the constant expression that begins there a value leaves 64 bits or a divisor is 0; or its value leaves its declared range;
    /// or a bound there leaves 32 bits; or the lower bound there exceeds the upper one.
    ConstantRange { at: u32 },
    /// The algebraic variable of that number, counted from 0, is the first that depends on itself.
    AlgCycle { alg: u32 },
    /// The divisor that begins there may be 0.
    ZeroDivisor { at: u32 },
    /// The value of the expression that begins there, or of a part of a sum or product there, may leave 64 bits.
    TooWide { at: u32 },
    /// The state invariant whose predicate begins there depends on an input.
    InvariantReadsInput { at: u32 },
    /// The state invariant whose predicate begins there does not hold in the initial state.
    InvariantFalse { at: u32 },
    /// The choices of all events have too many nodes, or an expression is too deep. Each number stops one past its limit.
    TooLarge { nodes: u32, depth: u32 },
}

/// What is told of a refusal: its number, its name, and each field's name and value. An algebraic variable is told by its path.
pub fn refusal_text(alloc: Global, path: &[u8], why: Refusal) -> Result<Text, Memory>
    ensures { IfOk result (λ text. text ≡ texts.refusal_text path.now why) }
{
    match why {
        Refusal::BadByte { at } => with_number(alloc, b"1 BadByte at ", at),
        Refusal::NumberTooBig { at } => with_number(alloc, b"2 NumberTooBig at ", at),
        Refusal::OpenComment { at } => with_number(alloc, b"3 OpenComment at ", at),
        Refusal::NotRead { at } => with_number(alloc, b"4 NotRead at ", at),
        Refusal::Unknown { at } => with_number(alloc, b"5 Unknown at ", at),
        Refusal::Duplicate { at, first } => {
            with_numbers(alloc, b"6 Duplicate at ", at, b" first ", first)
        }
        Refusal::WrongKind { at } => with_number(alloc, b"7 WrongKind at ", at),
        Refusal::DefinitionCycle { at } => with_number(alloc, b"8 DefinitionCycle at ", at),
        Refusal::Mismatch { at } => with_number(alloc, b"9 Mismatch at ", at),
        Refusal::NotConstant { at } => with_number(alloc, b"10 NotConstant at ", at),
        Refusal::Initials { at, count } => {
            with_numbers(alloc, b"11 Initials at ", at, b" count ", count)
        }
        Refusal::NotOwn { at } => with_number(alloc, b"12 NotOwn at ", at),
        Refusal::AssignedTwice { at } => with_number(alloc, b"13 AssignedTwice at ", at),
        Refusal::Equations { at, count } => {
            with_numbers(alloc, b"16 Equations at ", at, b" count ", count)
        }
        Refusal::AlphabetLacks { at } => with_number(alloc, b"14 AlphabetLacks at ", at),
        Refusal::RoleMixed { at } => with_number(alloc, b"15 RoleMixed at ", at),
        Refusal::TooManyObjects { count } => {
            with_number(alloc, b"17 TooManyObjects count ", count)
        }
        Refusal::ConstantRange { at } => with_number(alloc, b"18 ConstantRange at ", at),
        Refusal::AlgCycle { alg: _ } => joined(alloc, &[b"19 AlgCycle alg ", path]),
        Refusal::ZeroDivisor { at } => with_number(alloc, b"20 ZeroDivisor at ", at),
        Refusal::TooWide { at } => with_number(alloc, b"21 TooWide at ", at),
        Refusal::InvariantReadsInput { at } => {
            with_number(alloc, b"22 InvariantReadsInput at ", at)
        }
        Refusal::InvariantFalse { at } => with_number(alloc, b"23 InvariantFalse at ", at),
        Refusal::TooLarge { nodes, depth } => {
            with_numbers(alloc, b"24 TooLarge nodes ", nodes, b" depth ", depth)
        }
    }
}
