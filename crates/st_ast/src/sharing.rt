//! Programs among threads.

use crate::tree::Program;

/// What threads may take over and share.
fn is_shared<T: Send + Sync>(_value: &T) {}

/// Threads may take over and share a program.
pub fn program_is_shared(program: &Program) {
    is_shared(program);
}
