//! The rules on algebraic variables, intervals, state invariants and sizes of a net, and the net in which algebraic variables
//! are replaced by their definitions (CIF 3 language reference, "Algebraic variables").
#![tactic(auto)]

mod checking;
mod counting;
mod error;
mod inlining;
mod invariants;
mod laws;
mod limit;
mod making;
mod tally;
mod weighed;

pub use checking::check_net;
pub use counting::{choice_nodes, with_sizes};
pub use error::AlgErr;
pub use inlining::{inline, settle};
pub use laws::outlines_have_the_nodes_of_their_net;
pub use making::MOST_FORMS;
