//! An order of a graph of needs in which each node stands after what it needs, or a node that needs itself through others.
#![tactic(auto)]

mod cycles;
mod error;
mod graph;
mod laws;
mod ordering;
mod search;

pub use cycles::lowest;
pub use error::OrderErr;
pub use laws::{an_order_gives_a_rank, ordered_needs_are_acyclic};
pub use ordering::order;
