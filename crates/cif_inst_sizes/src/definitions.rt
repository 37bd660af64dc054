//! What names stand for that have expressions of their own.

use cif_ast::Expr;

/// The expressions that define an algebraic variable, or the one that is given for a parameter: one, or one for each location of an
/// automaton, where one that is missing is 0. Their names are those of the component with that number.
#[derive(Drop)]
pub struct Definition<'a> {
    pub component: u32,
    pub values: Vec<Option<&'a Expr>>,
}
