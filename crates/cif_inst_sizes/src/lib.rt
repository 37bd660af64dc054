//! The sizes and depths that the expressions of a source have in its net, without making them: a net has an argument again wherever
//! a name of its parameter stands, so it may be exponentially larger than its source (CIF 3 language reference, "Component
//! definition and instantiation", "Algebraic variables").
#![tactic(auto)]

mod arguments;
mod definitions;
mod edges;
mod expressions;
mod laws;
mod measuring;
mod needs;
mod weights;

pub use definitions::Definition;
pub use edges::{edge_measure, use_measure, value_measure};
pub use laws::exact_weights_give_a_rank;
pub use weights::{Weights, weights_of};
