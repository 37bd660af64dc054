//! Laws of nets, for the crates above: what a net keeps in which each algebraic variable is replaced by its definition,
//! and that the listed choices of a net make its steps (CIF 3 language reference, "Synchronization", "Channels",
//! "Monitoring").
#![tactic(auto)]

mod choosing;
mod unfolding;

pub use choosing::{
    guarded_choices_are_those_of_the_net, guarded_choices_make_steps, linear_choices_make_steps,
};
pub use unfolding::{
    unfolded_nets_are_nets, unfolded_nets_are_plain, unfolded_nets_have_plain_expressions,
    unfolded_nets_have_the_same_face, unfolded_nets_keep_their_invariants,
    unfolded_nets_mean_the_same,
};
