//! The interval, the size and the depth of the expressions of a net, and the rules on divisors that may be 0, on values wider
//! than 64 bits and on sizes (CIF 3 language reference, "Expressions").
#![tactic(auto)]

mod checking;
mod declared;
mod depth;
mod error;
mod intervals;
mod laws;
mod measures;
mod operators;
mod ranges;
mod sizes;
mod widths;

pub use checking::check_intervals;
pub use declared::{Declared, declared_ranges};
pub use depth::{depth_of, net_depth};
pub use error::{IntervalErr, WidthErr};
pub use intervals::interval;
pub use laws::none_measured;
pub use measures::{MOST_DEPTH, MOST_NODES, Measure, expr_measure};
pub use ranges::Ranges;
pub use sizes::{edge_size, exclusion_size, invariants_size};
pub use widths::check_widths;
