//! The Structured Text program of a net (IEC 61131-3): the parts of its events, with the declarations of their own variables, and
//! the part that shows its algebraic variables, from which `plc_frame` makes the program.
#![tactic(auto)]

mod bare;
mod emitting;
mod faces;
mod parts;
mod program;
mod showing;
mod types;

pub use emitting::emit;
