//! Laws of the program of a net, for the crates above: the statements of each event try it, those of the algebraic
//! variables show them, the program breaks no check and has a spelling, and its parts can stand in the frame.
#![tactic(auto)]

mod framing;
mod soundness;
mod trying;

pub use framing::{net_parts_are_framed, net_programs_make};
pub use soundness::{
    net_programs_are_checked, net_programs_have_a_spelling, own_variables_are_own,
};
pub use trying::{algebraic_variables_are_shown, net_parts_are_tried};
