//! The standard input, line by line.

use crate::fault::Fault;
use crate::fields::Fields;
use crate::script::Script;
use std::io::{BufRead, BufReader};
use std::process::ExitCode;

/// Answers the lines up to the end, or up to one that has no form; `at` is then its number, counted from 1.
fn put_lines<E: Into<Fault>, A: Fn(&str, &Fields<'_>, &mut String) -> Result<(), E>>(
    rt: &HostRuntime,
    answer: &A,
    at: &mut u64,
) -> Result<(), Fault>
    requires { A.IsAlwaysCallable answer.now }
{
    let alloc = rt.alloc();
    let mut script = Script::new(alloc);
    for line in BufReader::new(alloc, rt.reader())?.lines(alloc) {
        *at = at.saturating_add(1);
        let page = script.line(answer, line?.as_str())?;
        print!(rt; "{page}")?;
    }
    let count = script.calls();
    println!(rt; "{count} cases")?;
    Ok(())
}

/// Runs the cases of the standard input, and prints how many there were. It stops with 1 at a line that has no form. `answer` makes
/// the call that a case names by its first word, and prints what it answers.
pub fn run<E: Into<Fault>, A: Fn(&str, &Fields<'_>, &mut String) -> Result<(), E>>(
    rt: &HostRuntime,
    answer: &A,
) -> ExitCode
    requires { A.IsAlwaysCallable answer.now }
{
    let mut at = 0;
    match put_lines(rt, answer, &mut at) {
        Ok(()) => ExitCode::SUCCESS,
        Err(fault) => {
            let _ = eprintln!(rt; "line {at}: {fault}");
            ExitCode::from(1)
        }
    }
}
