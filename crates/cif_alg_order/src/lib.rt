//! The algebraic variables of a net (CIF 3 language reference, "Algebraic variables"): an order in which each stands after those
//! that its definitions name, and along it their measures and their intervals.
#![tactic(auto)]

mod checking;
mod error;
mod laws;
mod measuring;
mod naming;
mod ordering;
mod ranging;

pub use checking::check_algebraic_intervals;
pub use error::AlgebraicErr;
pub use laws::{an_order_gives_a_rank, ordered_nets_are_acyclic};
pub use measuring::algebraic_measures;
pub use ordering::order_algebraic;
