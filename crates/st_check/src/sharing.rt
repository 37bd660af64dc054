//! Checked programs among threads.

use crate::checked::Checked;

/// What threads may take over and share.
fn is_shared<T: Send + Sync>(_value: &T) {}

/// Threads may take over and share a checked program.
pub fn checked_is_shared(checked: &Checked) {
    is_shared(checked);
}
