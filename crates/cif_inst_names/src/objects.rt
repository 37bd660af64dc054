//! What names of a source stand for in its flat net.

use cif_ast::Expr;
use cif_inst_components::Place;

/// The value of a constant: of a boolean whether it is true, and of any other a number.
#[derive(Clone, Copy, Debug, PartialEq, Eq)]
pub enum Value {
    Truth(bool),
    Number(i64),
}

/// What is declared: the value of a constant or a literal, an event, a variable, an input or an algebraic variable by its number, or
/// a location by its automaton and its place there. `Nothing` is anything else, as a component.
#[derive(Clone, Copy, Debug, PartialEq, Eq)]
pub enum Object {
    Known(Value),
    Event(u32),
    Var(u32),
    Input(u32),
    Alg(u32),
    Location { auto: u32, place: u32 },
    Nothing,
}

/// What a name of a component stands for: what is declared, or an expression that another component gave. `parameter` is where the
/// parameter stands that has it for its argument, `giver` the component in which its names are looked up, and `at` the place of
/// the outermost parentheses, where some stood round it.
#[derive(Clone, Copy)]
pub enum Meaning<'a> {
    Object(Object),
    Given {
        parameter: Place,
        giver: u32,
        value: &'a Expr,
        at: Option<u32>,
    },
}
