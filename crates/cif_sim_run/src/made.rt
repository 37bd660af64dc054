//! Actions that were made.

/// A step: its event, and the choice of that event that made it.
#[derive(Clone, Copy, Debug)]
pub(crate) struct Fired {
    pub(crate) event: u32,
    pub(crate) choice: u32,
}

/// An action that was made.
#[derive(Clone, Copy, Debug)]
pub(crate) enum Made {
    Idle,
    Set { input: u32, value: i64 },
    Fire(Fired),
}
