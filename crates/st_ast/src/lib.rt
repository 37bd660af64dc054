//! The trees of Structured Text programs (IEC 61131-3), and in `specs/` their grammar, their checks and what they mean.
#![tactic(auto)]

mod copying;
mod kinds;
mod sharing;
mod tree;

pub use kinds::TokenKind;
pub use sharing::program_is_shared;
pub use tree::{
    Address, Program, Size, StBranch, StClass, StExpr, StFactor, StLit, StMul, StOrder, StTerm,
    StTy, StVar, Stmt,
};
