//! Systems of automata: their states, choices, steps, runs and scans, as definitions for the crates above, and the laws
//! that these have.
#![tactic(auto)]

mod laws;

pub use laws::{
    choices_are_counted, each_choice_is_listed_once, every_choice_is_listed, exact_scan_is_legal,
    exact_scan_keeps_states, exact_scan_runs_first_steps, first_step_is_a_step,
    no_first_step_no_step, run_of_first_steps_is_a_run, scans_keep_states, step_keeps_states,
};
