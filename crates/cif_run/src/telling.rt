//! The line that is told of a status on the standard error.

ghost use Rattle.std.specs.Prelude.{◌≡◌, ◌≤◌, codes, map, string_bytes, IfOk};
ghost use Rattle.cif_io.specs.Faults.{Rose};
ghost use Rattle.cif_run.specs.Groups.{IsUnlessMemory};
ghost use Rattle.cif_run.specs.Tells.{Tells};
ghost use Rattle.cif_run.specs.Lines as lines;

use crate::ended::Ended;
use crate::status::{ProfileWhy, StRefusal, Status, StopWhy};
use cif_base::{Memory, Text};
use cif_io::{Sink, SinkErr, put_all};
use cif_refusal::{decimal_text, joined, refusal_text, with_number, with_numbers};
use plc_rows::RowErr;
use st_check::StCheckErr;
use st_read::StErr;
use st_scan::ScanErr;
use std::alloc::Global;

/// A word of the command line, counted from 0.
fn word(words: &[String], k: usize) -> &[u8]
    ensures { result.now ≡ lines.word (map string_bytes words.now) k }
{
    match words.get(k) {
        Some(word) => word.as_bytes(),
        None => b"",
    }
}

/// Whether the word begins with `--`.
fn begins_option(word: &[u8]) -> bool
    ensures { result ≡ lines.begins_option word.now }
{
    match word {
        [first, second, ..] => *first == b'-' && *second == b'-',
        [] | [_] => false,
    }
}

/// The place of the word before the first log: that of FILE, or of the number of the last option.
fn before_logs(words: &[String]) -> usize
    ensures { result ≡ lines.before_logs (map string_bytes words.now) }
{
    if !begins_option(word(words, 2)) {
        1
    } else if !begins_option(word(words, 4)) {
        3
    } else {
        5
    }
}

/// The word of a log, counted from 1.
fn log_word(words: &[String], log: u32) -> &[u8]
    ensures { result.now ≡ lines.log_word (map string_bytes words.now) log }
{
    let before = before_logs(words);
    word(words, before + log as usize)
}

/// Why no program is written; an event is told by its path.
fn profile_text(alloc: Global, path: &[u8], why: ProfileWhy) -> Result<Text, Memory>
    ensures { IfOk result (λ text. text ≡ lines.profile_text path.now why) }
{
    match why {
        ProfileWhy::TooManyChoices { count } => {
            with_number(alloc, b"25 TooManyChoices count ", count)
        }
        ProfileWhy::Unclassed { event: _ } => joined(alloc, &[b"28 Unclassed event ", path]),
    }
}

fn st_text(alloc: Global, error: StErr) -> Result<Text, Memory>
    ensures { IfOk result (λ text. text ≡ lines.st_text error) }
{
    match error {
        StErr::StBadByte { at } => with_number(alloc, b"31 StBadByte at ", at),
        StErr::StNumberTooBig { at } => with_number(alloc, b"32 StNumberTooBig at ", at),
        StErr::StOpenComment { at } => with_number(alloc, b"33 StOpenComment at ", at),
        StErr::StNotRead { at } => with_number(alloc, b"34 StNotRead at ", at),
        StErr::Memory => Ok(Text::new(alloc)),
    }
}

/// A broken check; a variable is told by its name.
fn check_text(alloc: Global, variable: &[u8], error: StCheckErr) -> Result<Text, Memory>
    ensures { IfOk result (λ text. text ≡ lines.check_text variable.now error) }
{
    match error {
        StCheckErr::StUnknown { statement } => {
            with_number(alloc, b"35 StUnknown statement ", statement)
        }
        StCheckErr::StDuplicate { .. } => {
            joined(alloc, &[b"36 StDuplicate variable ", variable])
        }
        StCheckErr::StMismatch { statement } => {
            with_number(alloc, b"37 StMismatch statement ", statement)
        }
        StCheckErr::StNotAssignable { statement } => {
            with_number(alloc, b"38 StNotAssignable statement ", statement)
        }
        StCheckErr::StInitRange { .. } => {
            joined(alloc, &[b"39 StInitRange variable ", variable])
        }
        StCheckErr::Memory => Ok(Text::new(alloc)),
    }
}

fn st_refusal_text(alloc: Global, variable: &[u8], why: StRefusal) -> Result<Text, Memory>
    ensures { IfOk result (λ text. text ≡ lines.st_refusal_text variable.now why) }
{
    match why {
        StRefusal::Text(error) => st_text(alloc, error),
        StRefusal::Check(error) => check_text(alloc, variable, error),
    }
}

fn row_text(alloc: Global, error: RowErr) -> Result<Text, Memory>
    ensures { IfOk result (λ text. text ≡ lines.row_text error) }
{
    match error {
        RowErr::Header { column } => with_number(alloc, b"44 Header column ", column),
        RowErr::Cell { row, column } => {
            with_numbers(alloc, b"45 Cell row ", row, b" column ", column)
        }
        RowErr::RowLength { row } => with_number(alloc, b"46 RowLength row ", row),
        RowErr::TooManyRows { count } => with_number(alloc, b"47 TooManyRows count ", count),
        RowErr::CaseBoundary { row } => with_number(alloc, b"48 CaseBoundary row ", row),
        RowErr::Memory => Ok(Text::new(alloc)),
    }
}

/// A value outside the subrange of the variable with this name.
fn subrange_text(alloc: Global, variable: &[u8], value: i64) -> Result<Text, Memory>
    ensures { IfOk result (λ text. text ≡ lines.subrange_text variable.now value) }
{
    let value = decimal_text(alloc, value)?;
    joined(
        alloc,
        &[
            b"42 SubrangeLeft variable ",
            variable,
            b" value ",
            value.as_slice(),
        ],
    )
}

fn scan_text(alloc: Global, variable: &[u8], error: ScanErr) -> Result<Text, Memory>
    ensures { IfOk result (λ text. text ≡ lines.scan_text variable.now error) }
{
    match error {
        ScanErr::Overflow => Text::from_slice(alloc, b"40 Overflow"),
        ScanErr::ZeroDivide => Text::from_slice(alloc, b"41 ZeroDivide"),
        ScanErr::SubrangeLeft { variable: _, value } => subrange_text(alloc, variable, value),
        ScanErr::Budget => Text::from_slice(alloc, b"43 Budget"),
    }
}

/// Why a script stops at a line.
fn stop_text(alloc: Global, why: StopWhy) -> Result<Text, Memory>
    ensures { IfOk result (λ text. text ≡ lines.stop_text why) }
{
    match why {
        StopWhy::OutOfRange { value } => {
            let value = decimal_text(alloc, value)?;
            joined(alloc, &[b"26 OutOfRange value ", value.as_slice()])
        }
        StopWhy::NotEnabled => Text::from_slice(alloc, b"27 NotEnabled"),
        StopWhy::BadLine => Text::from_slice(alloc, b"29 BadLine"),
    }
}

/// What is told of a file.
fn file_line(alloc: Global, name: &[u8], what: &[u8]) -> Result<Text, Memory>
    ensures { IfOk result (λ line. line ≡ lines.file_line name.now what.now) }
{
    joined(alloc, &[b"cif: ", name, b": ", what, b"\n"])
}

/// What is told of a row, a line or a scan of a file, counted from 1.
fn place_line<'a>(
    alloc: Global,
    name: &'a [u8],
    place: &'a [u8],
    number: u32,
    what: &'a [u8],
) -> Result<Text, Memory>
    ensures { IfOk result (λ line. line ≡ lines.place_line name.now place.now number what.now) }
{
    let number = decimal_text(alloc, number as i64)?;
    joined(
        alloc,
        &[b"cif: ", name, place, number.as_slice(), b": ", what, b"\n"],
    )
}

/// What is told of the scan of a row that ends in a fault.
fn fault_line(
    alloc: Global,
    words: &[String],
    variable: &[u8],
    row: u32,
    fault: ScanErr,
) -> Result<Text, Memory>
    ensures { IfOk result (λ line. line ≡ lines.scan_line (lines.word (map string_bytes words.now) 1) row (lines.scan_text variable.now fault)) }
{
    let what = scan_text(alloc, variable, fault)?;
    place_line(alloc, word(words, 1), b": row ", row, what.as_slice())
}

/// What is told of a script that stops.
fn stop_line(alloc: Global, words: &[String], line: u32, why: StopWhy) -> Result<Text, Memory>
    ensures { IfOk result (λ text. text ≡ lines.place_line (lines.word (map string_bytes words.now) 2) (codes ": line ") line (lines.stop_text why)) }
{
    let what = stop_text(alloc, why)?;
    place_line(alloc, word(words, 2), b": line ", line, what.as_slice())
}

/// A file that may have so many bytes.
fn too_big_line(alloc: Global, name: &[u8], most: u32) -> Result<Text, Memory>
    ensures { IfOk result (λ line. line ≡ lines.too_big_line name.now most) }
{
    let most = decimal_text(alloc, most as i64)?;
    joined(
        alloc,
        &[
            b"cif: ",
            name,
            b" is longer than ",
            most.as_slice(),
            b" bytes\n",
        ],
    )
}

/// The line of a status that tells of a variable or an event of this name, if it tells of one; none after `Done`.
fn line(
    alloc: Global,
    words: &[String],
    variable: &[u8],
    limit: u32,
    status: Status,
) -> Result<Text, Memory>
    ensures { IfOk result (λ line. line ≡ lines.line_of (map string_bytes words.now) variable.now limit status) }
{
    match status {
        Status::Done => Ok(Text::new(alloc)),
        Status::Usage => Text::from_slice(alloc, b"cif: not a command line\n"),
        Status::ReadFault { word: k } => joined(
            alloc,
            &[b"cif: cannot read ", word(words, k as usize), b"\n"],
        ),
        Status::WriteFault => Text::from_slice(alloc, b"cif: cannot write\n"),
        Status::Memory => Text::from_slice(alloc, b"cif: out of memory\n"),
        Status::TooBig { word: k } => too_big_line(alloc, word(words, k as usize), limit),
        Status::Refused { why } => {
            let what = refusal_text(alloc, variable, why)?;
            file_line(alloc, word(words, 1), what.as_slice())
        }
        Status::OutsideProfile { why } => {
            let what = profile_text(alloc, variable, why)?;
            file_line(alloc, word(words, 1), what.as_slice())
        }
        Status::StRefused { why } => {
            let what = st_refusal_text(alloc, variable, why)?;
            file_line(alloc, word(words, 1), what.as_slice())
        }
        Status::RowRefused { why } => {
            let what = row_text(alloc, why)?;
            file_line(alloc, word(words, 2), what.as_slice())
        }
        Status::ScanFault { row, fault } => fault_line(alloc, words, variable, row, fault),
        Status::Budget { row } => fault_line(alloc, words, variable, row, ScanErr::Budget),
        Status::Stopped { line, why } => stop_line(alloc, words, line, why),
        Status::BadTrace { log, scan } => {
            place_line(alloc, log_word(words, log), b": scan ", scan, b"not legal")
        }
        Status::LogRefused { log, line } => {
            place_line(alloc, log_word(words, log), b": line ", line, b"53 LogLine")
        }
        Status::NoEvent => Text::from_slice(alloc, b"cif: 54 NoEvent\n"),
    }
}

/// Tells the line of an end, if it has one. The answer is its status, or want of memory.
pub fn report<E: Sink>(alloc: Global, words: &[String], ended: Ended, err: &mut E) -> Status
    ensures unless_memory { IsUnlessMemory result ended.status }
    ensures tells { Tells (map string_bytes words.now) ended (E.written err.old) (E.written err.new)
        (Rose (E.faults err.old) (E.faults err.new)) result }
    ensures faults_stay_or_rise { E.faults err.old ≤ E.faults err.new }
{
    let status = ended.status;
    let Ok(line) = line(alloc, words, ended.variable.as_slice(), ended.limit, status) else {
        return Status::Memory;
    };
    match put_all(err, line.as_slice()) {
        Ok(()) => status,
        Err(SinkErr::Failed) => status,
        Err(SinkErr::Memory) => Status::Memory,
    }
}
