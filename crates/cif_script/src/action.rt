//! What a line of a script does.

/// What a line of a script does: nothing, it sets an input to a value, or it fires an event. Inputs and events are numbers
/// from 0; a boolean is 0 or 1, and a literal is its place in its enumeration.
#[derive(Clone, Copy, Debug, PartialEq, Eq)]
pub enum Action {
    Idle,
    Set { input: u32, value: i64 },
    Fire { event: u32 },
}
