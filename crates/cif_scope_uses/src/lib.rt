//! The names that the parts of a CIF source write, each with the sort that its position asks for, as references into the tree.
#![tactic(auto)]

mod arguments;
mod automata;
mod declarations;
mod edges;
mod expressions;
mod own_names;
mod uses;

pub use arguments::add_arg_uses;
pub use automata::add_automaton_uses;
pub use declarations::{add_decl_uses, add_param_uses};
pub use own_names::{OwnName, add_automaton_own_names, add_decl_own_names};
pub use uses::{Asked, Use};
