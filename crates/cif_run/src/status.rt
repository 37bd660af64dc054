//! How a call of the tool ends.

ghost use Rattle.std.specs.Prelude.{◌≡◌};
ghost use Rattle.cif_run.specs.Codes.{code_of};

use cif_refusal::Refusal;
use plc_rows::RowErr;
use st_check::StCheckErr;
use st_read::StErr;
use st_scan::ScanErr;

/// Why no program is written for a source that breaks no other rule.
#[derive(Clone, Copy, Debug, PartialEq, Eq)]
pub enum ProfileWhy {
    /// The choices of all events are too many. The count stops one past the limit.
    TooManyChoices { count: u32 },
    /// The event of that number, counted from 0, is the first that is neither controllable nor uncontrollable.
    Unclassed { event: u32 },
}

/// Why a text is refused that should be a program of Structured Text.
#[derive(Clone, Copy, Debug, PartialEq, Eq)]
pub enum StRefusal {
    /// It is not read.
    Text(StErr),
    /// It breaks a check.
    Check(StCheckErr),
}

/// Why a script stops at a line.
#[derive(Clone, Copy, Debug, PartialEq, Eq)]
pub enum StopWhy {
    /// The value is outside the range of the input that the line sets.
    OutOfRange { value: i64 },
    /// The event has no step from the state reached.
    NotEnabled,
    /// The line has none of the forms of a script's line, or its name or value denotes nothing of that sort.
    BadLine,
}

/// How a call of the tool ends. `word` is the number of a word of the command line, counted from 0.
#[derive(Clone, Copy, Debug, PartialEq, Eq)]
pub enum Status {
    /// The whole text of the command was written.
    Done,
    /// The words are no command line.
    Usage,
    /// The file of that word was not read.
    ReadFault { word: u32 },
    /// The output was not written, or only its beginning.
    WriteFault,
    /// No memory was found.
    Memory,
    /// The file of that word is longer than it may be.
    TooBig { word: u32 },
    /// The source is refused.
    Refused { why: Refusal },
    /// The source is none that programs are written for.
    OutsideProfile { why: ProfileWhy },
    /// The text is refused as a program of Structured Text.
    StRefused { why: StRefusal },
    /// The rows are refused.
    RowRefused { why: RowErr },
    /// The scan of that row, counted from 1, ends in a fault.
    ScanFault { row: u32, fault: ScanErr },
    /// The scan of that row, counted from 1, takes more loop turns than a scan has.
    Budget { row: u32 },
    /// The script stops at that line, counted from 1. What it wrote before stands in the output.
    Stopped { line: u32, why: StopWhy },
    /// That scan of that log is not legal, both counted from 1.
    BadTrace { log: u32, scan: u32 },
    /// That line of that log is refused, both counted from 1.
    LogRefused { log: u32, line: u32 },
    /// No event has the path.
    NoEvent,
}

/// The exit code of a status.
pub fn code(status: &Status) -> u8
    ensures { result ≡ code_of status.now }
{
    match status {
        Status::Done => 0,
        Status::Usage => 2,
        Status::ReadFault { .. } => 3,
        Status::WriteFault => 4,
        Status::Memory => 5,
        Status::TooBig { .. } => 6,
        Status::Refused { .. } => 7,
        Status::OutsideProfile { .. } => 8,
        Status::StRefused { .. } => 9,
        Status::RowRefused { .. } => 10,
        Status::ScanFault { .. } => 11,
        Status::Budget { .. } => 12,
        Status::Stopped { .. } => 13,
        Status::BadTrace { .. } => 14,
        Status::LogRefused { .. } => 15,
        Status::NoEvent => 16,
    }
}
