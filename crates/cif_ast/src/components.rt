//! Components, definitions and instances (CIF 3 language reference, "Groups", "Component definition and instantiation").

use crate::declarations::{Decl, Param};
use crate::edges::Loc;
use crate::expressions::Expr;
use crate::names::{Ident, Name};
use cif_base::Items;

/// A specification: its items in the order of the text.
#[derive(Drop)]
pub struct Spec {
    pub items: Items<Item>,
}

/// What stands in a specification or a group.
#[cycle(item)]
#[derive(Drop)]
pub enum Item {
    Decl(Decl),
    Comp(Comp),
    Def(Def),
    Inst(Inst),
}

/// A group or an automaton.
#[cycle(item)]
#[derive(Drop)]
pub struct Comp {
    pub name: Ident,
    pub body: Body,
}

/// The body of a group, or that of an automaton.
#[cycle(item)]
#[derive(Drop)]
pub enum Body {
    Group(Items<Item>),
    Auto(AutoBody),
}

/// The body of an automaton. Its alphabet is `None` where it isn't declared, and `monitor` where nothing is monitored;
/// `monitor;` has no names.
#[derive(Drop)]
pub struct AutoBody {
    pub decls: Items<Decl>,
    pub alphabet: Option<Items<Name>>,
    pub monitor: Option<Items<Name>>,
    pub locs: Items<Loc>,
}

/// A definition of a group or an automaton.
#[cycle(item)]
#[derive(Drop)]
pub struct Def {
    pub name: Ident,
    pub params: Items<Param>,
    pub body: Body,
}

/// An instance of a definition, with its arguments.
#[derive(Drop)]
pub struct Inst {
    pub name: Ident,
    pub def: Name,
    pub args: Items<Expr>,
}
