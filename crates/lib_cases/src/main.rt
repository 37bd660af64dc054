//! Cases of what stands below the command line, as data: of expressions of a net, of components and their parameters, of the rules on
//! kinds, constants and updates; of Structured Text, of rows and names; of intervals, numbers, graphs, files and sinks. Asks the
//! public calls of the libraries what the standard input says, and prints what they answer. The file `stdout` beside this crate has the
//! expected answers, which are never taken from a run. `case_text` says how lines and texts are written.
//!
//! The calls on CIF sources:
//!
//! - `components TEXT`: the components of a source, each with its body, where it stands, and its outer component; `from COMPONENT NAME |
//!   TEXT`: what the name finds from the component with this number; both as the number of a component and that of a name of its scope;
//! - `interval NUMBERS | EXPR`: the interval, the size and the depth of an expression, in which `a` is the first variable, `b` the
//!   second and so on; the numbers are the lower and the upper bound of what is received, and then those of each variable;
//! - `kinds TEXT`: whether a source of any form keeps the rules on kinds, or one that it breaks;
//! - `numbers TEXT`: whether each component of a source is an automaton, with its number, and the numbers of what it declares; and how
//!   many events, inputs, variables, algebraic variables and automata there are;
//! - `parameters TEXT`: what the parameters of each component with some stand for: an event or a location by the component that
//!   declares it and its name there, or the expression of a component at a place, and behind `as` the place of the parentheses that
//!   stood round it;
//! - `rules TEXT`: what the rules on constants, on assigned variables and on definitions of algebraic variables say of a source, and
//!   the kind of each name of each of its bodies, with the lists of literals by their numbers;
//! - `value TEXT`: the value of the constant that a source declares last, in which each name of a constant has the value 0.
//!
//! The calls on programs of Structured Text:
//!
//! - `read`, `print`, `check PROGRAM | NAME ..`, `scan PROGRAM | VALUE .. | ..`: a program, and a machine before and after each scan, `-`
//!   for a row without values;
//! - `copy PROGRAM`: whether the copy of the value that its first statement assigns is printed as the value is;
//! - `rows TEXT | PROGRAM`: a rows file;
//! - `table PROGRAM | VALUE .. | ..`: the output table of a program whose outputs have these values after each scan, `-` for none;
//! - `name LETTER NUMBER | TEXT`: the name of a variable that stands for what has that number and that path.
//!
//! The calls on what stands below both languages:
//!
//! - `operator OPERATOR | LO HI [LO HI]`: the interval that an operator makes of one interval or of two;
//! - `int TEXT`: the number that a text is in canonical decimal;
//! - `sure TEXT | file NAME TEXT | read NAME LIMIT`: a sink and files in memory that never fail;
//! - `order NEEDS | NEEDS ..`: the order of nodes, each with the numbers of those that it needs, `-` for none, and the lowest that
//!   reaches itself.
#![tactic(auto)]

mod calls;
mod components;
mod copies;
mod counting;
mod expressions;
mod graphs;
mod intervals;
mod naming;
mod numbers;
mod parameters;
mod programs;
mod rules;
mod sources;
mod stores;
mod tables;

use crate::calls::answer;
use case_text::run;
use std::process::ExitCode;

fn main(rt: HostRuntime) -> ExitCode {
    run(&rt, &answer)
}
