//! The top call: it dispatches the words of a command line to the command that they ask for, with what is proved of all
//! commands as the contract of `tool`.
#![tactic(auto)]

mod laws;
mod running;

pub use cif_batch::{Gate, NoGate};
pub use cif_refusal::Refusal;
pub use cif_run::{ProfileWhy, StRefusal, Status, StopWhy, code};
pub use laws::{
    replay_takes_what_generate_writes, these_rows_are_read, these_words_ask_for_generate,
    this_line_is_told,
};
pub use running::tool;
