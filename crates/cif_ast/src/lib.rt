//! The tree of a CIF source, as it is written (CIF 3 language reference).
#![tactic(auto)]

mod components;
mod copying;
mod declarations;
mod depths;
mod edges;
mod expressions;
mod names;

pub use components::{AutoBody, Body, Comp, Def, Inst, Item, Spec};
pub use declarations::{Chan, Class, Decl, Inv, Param, TypeUse};
pub use depths::depth;
pub use edges::{Edge, EventUse, Loc, LocEquation, Role, Update, UpdateBranch};
pub use expressions::{Branch, CmpOp, Expr, Factor, Form, MulOp, Term};
pub use names::{Ident, Name};
