//! What a parameter stands for.

use cif_ast::Expr;
use cif_inst_components::Place;

/// What a parameter of an instance stands for.
#[derive(Clone, Copy, Drop)]
pub enum Given<'a> {
    /// An event or a location, by the component that declares it and the slot there.
    Named(Place),
    /// An expression of the component with the number `giver`, which has no parentheses round it and is no bare name of an `alg`
    /// parameter of an instance. Where parentheses stood round it, `at` is the place of the outermost.
    Value {
        giver: u32,
        value: &'a Expr,
        at: Option<u32>,
    },
}
