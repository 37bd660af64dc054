//! The source side of the commands: from a file to the net of the source that it holds, or why it is refused.
#![tactic(auto)]

mod accepting;
mod laws;

pub use accepting::{SOURCE_LIMIT, accept_file};
pub use laws::these_tokens_are_read;
