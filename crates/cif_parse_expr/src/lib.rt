//! Reading names and expressions of a CIF source (CIF 3 language reference, "Expressions"), and parts that stand one after
//! the other.
#![tactic(auto)]

mod error;
mod expressions;
mod forms;
mod levels;
mod naming;
mod operands;
mod parts;
mod spelling;
mod tokens;

pub use error::ReadError;
pub use expressions::{ExprListPart, ExprPart, expr, expr_list};
pub use naming::{IdentPart, NamePart, NamesPart, ident, ids, name, names};
pub use parts::{
    Part, fitted, inside, joined, joined_list, only, optional, repeated, repeated_boxes, separated,
    separated_boxes,
};
pub use tokens::{Read, any_of, code, kind, sign, starts, word};
