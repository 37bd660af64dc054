//! How often a scan tries the events.

/// The most rounds of each class in a scan: `unc` of the uncontrollable events, and `con` of the controllable ones.
#[derive(Clone, Copy, Debug, PartialEq, Eq)]
pub struct Bounds {
    pub unc: u32,
    pub con: u32,
}
