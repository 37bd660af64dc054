//! Why a source has no tree.

/// Why a source has no tree, or that memory ran out.
#[derive(Clone, Copy, Debug, PartialEq, Eq)]
pub enum ParseErr {
    /// The token that begins at that byte can't be there, or what begins there is too deep; or the source ends there too
    /// early.
    NotRead { at: u32 },
    Memory,
}
