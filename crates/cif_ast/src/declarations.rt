//! Declarations, the types in them, and parameters (CIF 3 language reference, "Declarations", "Types").

use crate::expressions::Expr;
use crate::names::{Ident, Name};
use cif_base::Items;

/// Who decides that an event happens: nobody says (`event`), the controller (`controllable`), or the plant
/// (`uncontrollable`).
#[derive(Clone, Copy, Debug, PartialEq, Eq)]
pub enum Class {
    Plain,
    Con,
    Unc,
}

/// What is sent along an event: the event is no channel, a channel without a value, or one with a value of a type.
#[derive(Drop)]
pub enum Chan {
    No,
    Void,
    Of(TypeUse),
}

/// A type where it is used. `Range` has the lower and the upper bound.
#[derive(Drop)]
pub enum TypeUse {
    Bool,
    Int,
    Range(Expr, Expr),
    Named(Name),
}

/// A declaration. Where a declaration of the source has several names, invariants or marking predicates, each is one
/// here, in the order of the text.
#[derive(Drop)]
pub enum Decl {
    TypeName {
        name: Ident,
        ty: TypeUse,
    },
    Enum {
        name: Ident,
        literals: Items<Ident>,
    },
    Event {
        class: Class,
        chan: Chan,
        name: Ident,
    },
    Const {
        ty: TypeUse,
        name: Ident,
        value: Expr,
    },
    Alg {
        ty: TypeUse,
        name: Ident,
        value: Option<Expr>,
    },
    Input {
        ty: TypeUse,
        name: Ident,
    },
    Disc {
        ty: TypeUse,
        name: Ident,
        value: Option<Expr>,
    },
    Equation {
        name: Ident,
        value: Expr,
    },
    Inv(Inv),
    Marked(Expr),
}

/// An invariant: of the state, or one that allows (`needs`) or forbids (`disables`) events.
#[derive(Drop)]
pub enum Inv {
    State(Expr),
    Needs { events: Items<Name>, p: Expr },
    Disables { p: Expr, events: Items<Name> },
}

/// A parameter of a definition.
#[derive(Drop)]
pub enum Param {
    Event {
        class: Class,
        chan: Chan,
        name: Ident,
    },
    Alg {
        ty: TypeUse,
        name: Ident,
    },
    Location {
        name: Ident,
    },
}
