//! Cases of CIF sources and of the command line as data: asks the public calls of the libraries what the standard input says, and
//! prints what they answer. The file `stdout` beside this crate has the expected answers, which are never taken from a run.
//! `case_text` says how lines and texts are written.
//!
//! The calls, most with one text:
//!
//! - `tool WORD .. | file NAME TEXT | reads N .. | writes N .. | takes N | tells N ..`: the command line over these files, where the
//!   reads, the writes of the output and those of standard error with these numbers, counted from 0, fail; a write of the output
//!   takes at most so many bytes (16), and one of standard error 7;
//! - `lex`, `expr`, `declaration`, `types`, `events`, `component`, `parameters`: readers of the front of a CIF source;
//! - `items`, `automaton`, `location`, `edge`, `choice`: the tree of a CIF source: its items, the automaton that is the last of them, its
//!   first location, the first edge of that, and the `if` update that is its first;
//! - `load TEXT`: the net of a CIF source with the choices of all events and its initial state, or why there is none;
//!   `emit TEXT | UNC CON`: its program;
//!   `sim TEXT | set INPUT VALUE | fire EVENT | first CLASS | why EVENT | state ..`: what these calls answer, one after the other over
//!   its net, with inputs and events by their numbers; CLASS is `plain`, `con`, `unc`, or nothing for all events;
//!   `widths TEXT`: whether the expressions of its net, before algebraic variables are replaced in it, divide by no 0 and stay in 64
//!   bits, and how deep they are; `inline TEXT`: the guards of that net where algebraic variables are replaced by their definitions;
//! - `scopes TEXT`: how many names the scope of each body of a source declares; `resolve TEXT`: the same where the source keeps all
//!   rules on scopes; `find BODY NAME | TEXT`: the instances that a name passes in the body with that number, and what it finds,
//!   each as the number of a body and that of a name of its scope.
#![tactic(auto)]

mod calls;
mod commands;
mod declarations;
mod expressions;
mod nets;
mod runs;
mod scopes;
mod sources;
mod tokens;

use crate::calls::answer;
use case_text::{Fault, Fields, run};
use std::process::ExitCode;

fn main(rt: HostRuntime) -> ExitCode {
    let answers = |call: &str, fields: &Fields<'_>, page: &mut String| -> Result<(), Fault> {
        answer(&rt, call, fields, page)
    };
    run(&rt, &answers)
}
