//! The state of a guarded net, changed by inputs that are set and by events that fire, in calls that take no memory.
#![tactic(auto)]

mod classes;
mod inputs;
mod laws;
mod marks;
mod names;
mod readers;
mod sim;
mod starts;
mod stepper;
mod tries;
mod waking;

pub use laws::{choices_leave_others, idle_events_stay_idle};
pub use sim::{NotEnabled, SetErr, Sim};
