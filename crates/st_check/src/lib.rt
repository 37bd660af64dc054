//! Checking the names, the types and the first values of a Structured Text program (IEC 61131-3, "Variables" and "Data
//! types"), and its statements with resolved names, in which a variable is its place among the declared ones.
#![tactic(auto)]

mod checked;
mod error;
mod making;
mod names;
mod placed;
mod placing;
mod rows;
mod scope;
mod sharing;
mod sorts;
mod statements;
mod stating;
mod testing;
mod variables;

pub use checked::{Checked, check_program};
pub use error::StCheckErr;
pub use making::{join_all, pair, product, select, single, sum, truth};
pub use placed::{
    Join, Pairing, PlacedBranch, PlacedCond, PlacedExpr, PlacedFactor, PlacedOperands, PlacedPair,
    PlacedProduct, PlacedSelection, PlacedStmt, PlacedSum, PlacedTerm, PlacedTest, Relation,
    Single,
};
pub use sharing::checked_is_shared;
pub use stating::{push_assignment, push_branch, push_choice, push_loop};
