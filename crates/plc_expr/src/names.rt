//! How what an expression names is written.

ghost use Rattle.std.specs.Prelude.{◌≡◌, pos, true, IfOk};
ghost use Rattle.st_ast.specs.Tree.{equal, named, number};
ghost use Rattle.st_ast.specs.View.{view_expr};
ghost use Rattle.plc_expr.specs.Written.{name_at, naming_of};

use cif_base::{Boxed, Items, Memory, Text};
use plc_model::Letter;
use plc_names::name_of;
use st_ast::StExpr;
use std::alloc::Global;

/// The place of an automaton: the variable that holds it, or the place in which the automaton is known to be.
#[derive(Debug, Drop)]
pub enum PlaceText {
    Held(Text),
    Known(u32),
}

/// The names that texts of expressions are written with: those of places by the numbers of automata, of variables and of
/// inputs by their numbers, of the received value, and the path in the names of the own variables.
#[derive(Debug, Drop)]
pub struct Names {
    pub places: Items<PlaceText>,
    pub variables: Items<Text>,
    pub inputs: Items<Text>,
    pub received: Text,
    pub own: Text,
}

impl Names {
    /// That an automaton is in a place.
    pub fn located(&self, alloc: Global, auto: u32, place: u32) -> Result<Boxed<StExpr>, Memory>
        ensures { IfOk result (λ e. view_expr e ≡ (naming_of self.now).located auto place) }
    {
        match self.places.get(auto as usize) {
            Some(PlaceText::Held(name)) => is_at(alloc, name, place),
            Some(PlaceText::Known(known)) => Boxed::new(alloc, StExpr::Bool(*known == place)),
            None => Boxed::new(alloc, StExpr::Bool(false)),
        }
    }

    /// A variable.
    pub fn variable(&self, alloc: Global, number: u32) -> Result<Boxed<StExpr>, Memory>
        ensures { IfOk result (λ e. view_expr e ≡ named ((naming_of self.now).variable number)) }
    {
        named_at(alloc, &self.variables, number)
    }

    /// An input.
    pub fn input(&self, alloc: Global, number: u32) -> Result<Boxed<StExpr>, Memory>
        ensures { IfOk result (λ e. view_expr e ≡ named ((naming_of self.now).input number)) }
    {
        named_at(alloc, &self.inputs, number)
    }

    /// The received value.
    pub fn received(&self, alloc: Global) -> Result<Boxed<StExpr>, Memory>
        ensures { IfOk result (λ e. view_expr e ≡ named (naming_of self.now).received) }
    {
        Boxed::new(alloc, StExpr::Named(self.received.copy(alloc)?))
    }

    /// The name of an own variable.
    pub fn own_name(&self, alloc: Global, number: u32) -> Result<Text, Memory>
        ensures { IfOk result (λ x. x ≡ (naming_of self.now).own number) }
    {
        name_of(alloc, Letter::T, number, self.own.as_slice())
    }
}

fn is_at(alloc: Global, name: &Text, place: u32) -> Result<Boxed<StExpr>, Memory>
    ensures { IfOk result (λ e. view_expr e ≡ equal (named name.now) true (number (pos place))) }
{
    let left = Boxed::new(alloc, StExpr::Named(name.copy(alloc)?))?;
    let right = Boxed::new(alloc, StExpr::Int(i64::from(place)))?;
    let equal = true;
    Boxed::new(alloc, StExpr::Equal { left, equal, right })
}

fn named_at(alloc: Global, names: &Items<Text>, number: u32) -> Result<Boxed<StExpr>, Memory>
    ensures { IfOk result (λ e. view_expr e ≡ named (name_at names.now number)) }
{
    match names.get(number as usize) {
        Some(name) => Boxed::new(alloc, StExpr::Named(name.copy(alloc)?)),
        None => Boxed::new(alloc, StExpr::Named(Text::new(alloc))),
    }
}
