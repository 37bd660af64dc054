//! Rows among threads.

use crate::row::{Cases, Rows};

/// What threads may take over and share.
fn is_shared<T: Send + Sync>(_value: &T) {}

/// Threads may take over and share the rows of a file.
pub fn rows_are_shared(rows: &Rows) {
    is_shared(rows);
}

/// Threads may take over and share the cases of a file.
pub fn cases_are_shared(cases: &Cases) {
    is_shared(cases);
}
