//! A scope as plain data: the outer body, and the names with what they are.

use cif_ast::{Class, Ident};
use cif_base::Items;

/// What a declaration declares (CIF 3 language reference, "Declarations").
#[derive(Clone, Copy, Debug, PartialEq, Eq)]
pub enum Sort {
    Type,
    Enum,
    Event(Class),
    Constant,
    Algebraic,
    Input,
    Discrete,
}

/// What a parameter of a definition stands for.
#[derive(Clone, Copy, Debug, PartialEq, Eq)]
pub enum ParamSort {
    Event,
    Algebraic,
    Location,
}

/// What a name of a scope is. Bodies are numbered in text order, the specification first.
#[derive(Clone, Copy, Debug, PartialEq, Eq)]
pub enum What {
    Declared(Sort),
    /// A literal, by its place in its enumeration.
    Literal(u32),
    /// A location, by its place in its automaton.
    Location(u32),
    /// A group or an automaton, by the number of its body.
    Component(u32),
    /// A definition: the number of its body, and how many parameters it has.
    Definition(u32, u32),
    /// An instance, by its number among those of its body.
    Instance(u32),
    Parameter(ParamSort),
}

/// A name of a scope.
#[derive(Debug, Drop)]
pub struct ScopeName {
    pub name: Ident,
    pub what: What,
}

/// The names that a body declares, in text order, its parameters first, and the number of the body in which it stands, which
/// the specification doesn't have.
#[derive(Debug, Drop)]
pub struct Scope {
    pub outer: Option<u32>,
    pub names: Items<ScopeName>,
}
