//! The statements of one event of a net in Structured Text (IEC 61131-3), from its choices: the tests, what is sent, the new values
//! and whether they are in range, the state invariants, the moves and the marks. Also the names that these statements use, and what
//! of the choices decides the event's own variables.
#![tactic(auto)]

mod acting;
mod after;
mod changes;
mod events;
mod keeping;
mod marks;
mod moves;
mod naming;
mod ranges;
mod selecting;
mod sending;
mod targets;
mod types;
mod writing;

pub use changes::{Changes, invariants_after};
pub use events::{EventMarks, event_marks, statements_of};
pub use keeping::Scratch;
pub use naming::{names_of, number_at};
pub use targets::{any_tested, assigned_variables};
pub use types::{carried_type, new_type, sent_type};
pub use writing::NewTexts;
