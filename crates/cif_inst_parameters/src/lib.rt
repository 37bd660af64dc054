//! What the parameters of instances stand for: each argument, read where the instance stands, with bare names of other parameters
//! followed (CIF 3 language reference, "Component definition and instantiation").
#![tactic(auto)]

mod following;
mod given;
mod giving;
mod instances;
mod passing;
mod stripping;

pub use given::Given;
pub use giving::parameters;
