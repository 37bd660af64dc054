//! How the rows of a file are numbered.

/// What stands in the column `scan`.
#[derive(Clone, Copy)]
pub enum Numbering {
    /// The number of the row in its file.
    ByFile,
    /// The number of the row in its case.
    ByCase,
}
