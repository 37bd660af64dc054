//! The exclusions and the state invariants of a CIF source in its flat net, and what they weigh there before they are made (CIF 3
//! language reference, "Invariants").
#![tactic(auto)]

mod predicates;
mod stated;
mod weights;

pub use predicates::{Predicates, predicates_of};
pub use weights::{Excluded, PredicateWeights, predicate_weights};
