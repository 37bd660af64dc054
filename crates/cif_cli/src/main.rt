//! The command-line tool `cif`: Structured Text programs (IEC 61131-3) from CIF sources, and their scans over rows. What is
//! proved of it is the contract of `cif_tool::tool`.
#![tactic(auto)]

use cif_io::{HostFiles, HostSink};
use cif_tool::{NoGate, Status, code, tool};
use std::process::ExitCode;
use std::{env, io};

/// The words after the program's name. A word that is no text makes them unreadable.
fn words(rt: &HostRuntime) -> io::Result<Vec<String>> {
    let mut words = Vec::new(rt.alloc());
    for word in env::args(rt)?.skip(1) {
        words.push(word)?;
    }
    Ok(words)
}

fn main(rt: HostRuntime) -> ExitCode {
    let words = match words(&rt) {
        Ok(words) => words,
        Err(error) if error.kind() == io::ErrorKind::OutOfMemory => {
            return ExitCode::from(code(&Status::Memory));
        }
        // Words that are no text are no command line.
        Err(_) => Vec::new(rt.alloc()),
    };
    let mut files = HostFiles::new(&rt);
    let mut out = HostSink::out(&rt);
    let mut err = HostSink::err(&rt);
    let status = tool(
        &rt,
        rt.alloc(),
        words.as_slice(),
        &mut files,
        &mut out,
        &mut err,
        &NoGate,
    );
    ExitCode::from(code(&status))
}
