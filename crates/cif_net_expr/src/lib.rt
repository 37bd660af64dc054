//! The expressions and updates of a flat net of automata, in which numbers stand for names (CIF 3 language reference,
//! "Expressions", "Automata").
#![tactic(auto)]

mod copying;
mod expressions;
mod updates;

pub use copying::copy_updates;
pub use expressions::{CmpOp, MulOp, NetBranch, NetExpr, NetFactor, NetForm, NetTerm};
pub use updates::{NetUpdate, NetUpdateBranch};
