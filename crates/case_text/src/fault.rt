//! Why the cases are not run to their end.

use cif_base::Memory;
use std::alloc::{AllocError, AllocFailed};
use std::{fmt, io};

/// Why a line is not answered, or why reading and printing stop.
#[derive(Clone, Copy)]
pub enum Fault {
    /// No memory was found.
    Memory,
    /// The standard input was not read, or the standard output not written.
    Stream,
    /// The line does not have the form of a case.
    Form(&'static str),
}

impl fmt::Display for Fault {
    fn fmt<W: fmt::Write>(&self, f: &mut fmt::Formatter<W>) -> fmt::Result {
        match self {
            Fault::Memory => write!(f, "out of memory"),
            Fault::Stream => write!(f, "a stream failed"),
            Fault::Form(what) => write!(f, "{what}"),
        }
    }
}

impl From<Memory> for Fault {
    fn from(_error: Memory) -> Fault {
        Fault::Memory
    }
}

impl From<AllocError> for Fault {
    fn from(_error: AllocError) -> Fault {
        Fault::Memory
    }
}

impl<T: Drop> From<AllocFailed<T>> for Fault {
    fn from(_error: AllocFailed<T>) -> Fault {
        Fault::Memory
    }
}

impl From<io::Error> for Fault {
    fn from(_error: io::Error) -> Fault {
        Fault::Stream
    }
}
