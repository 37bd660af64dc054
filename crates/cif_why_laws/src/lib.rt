//! That what is told of a CIF source is what is told of its net, and tells why its events have no step, as laws for the crates
//! above.
#![tactic(auto)]

mod laws;

pub use laws::{
    nets_tell_of_their_sources, sources_tell_of_their_edges, sources_tell_why,
    unfolded_nets_keep_what_is_told,
};
