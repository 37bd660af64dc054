//! The cases of a text, read by workers.

ghost use Rattle.std.specs.Prelude.{◌≡◌, ◌≤◌, ◌<◌, true, length, flat_map, IfOk, IfErr, IfSome};
ghost use Rattle.plc_rows.specs.Rows.{CasesOf};
ghost use Rattle.plc_rows.specs.Told.{IsFirstCase, cases_of};
ghost use Rattle.cif_batch.specs.Cutting.{AreRead, EndsLine, IsHeaderLine, IsRead, IsUnmarked, Together};

use crate::cutting::{first_line, pieces, scan_column};
use cif_base::Items;
use plc_rows::{Cases, RowErr, Rows};
use st_check::Checked;
use std::alloc::{AllocError, Global};
use std::thread;
use std::thread::Threads;

/// The most bytes of a text of cases.
const MOST_BYTES: usize = 67_108_864;

/// The most rows of a text of cases.
const MOST_ROWS: usize = 100_000;

/// The cases of pieces under their header. `None` if the pieces break a rule, hold a quote or are not whole cases, or memory runs out.
fn read_pieces(alloc: Global, program: &Checked, header: &[u8], pieces: &[&[u8]]) -> Option<Cases>
    ensures { IfSome result (λ c. IsRead program.now.vars header.now pieces.now c.cases) }
{
    let mut text = Vec::new(alloc);
    text.extend_from_slice(header).ok()?;
    for piece in pieces {
        text.extend_from_slice(piece).ok()?;
    }
    if text.len() > MOST_BYTES || text.contains(&b'"') {
        return None;
    }
    plc_rows::read_cases(alloc, text.as_slice(), program).ok()
}

/// The cases of each piece, by workers.
fn parts_of<R: Threads + Sync>(
    rt: &R,
    alloc: Global,
    program: &Checked,
    header: &[u8],
    pieces: &[&[u8]],
) -> Result<Vec<Option<Cases>>, AllocError>
    ensures { IfOk result (λ parts. AreRead program.now.vars header.now pieces.now parts.items) }
{
    let work = |_start: usize, part: &[&[u8]]| -> Option<Cases>
        ensures { IfSome result (λ c. IsRead program.entry.now.vars header.entry.now part.now c.cases) }
    { read_pieces(alloc, program, header, part) };
    let parts = thread::map_chunks(rt, alloc, pieces, 1, &work)?;
    Ok(parts)
}

/// The cases of all parts, one after the other. `None` if a part has none, or memory runs out.
fn together(alloc: Global, parts: Vec<Option<Cases>>) -> Option<Items<Rows>>
    ensures { IfSome result (λ cases. Together parts.items cases) }
{
    let mut all = Items::new(alloc);
    for part in parts {
        let Cases { cases } = part?;
        all.append(cases).ok()?;
    }
    Some(all)
}

/// Whether cases have no more rows than a text may have.
fn are_few(cases: &[Rows]) -> bool
    ensures { result ≡ true → length (flat_map (λ c. c) (cases_of cases.now)) ≤ 100000 }
{
    let mut left = MOST_ROWS;
    for case in cases {
        let rows = case.rows.len();
        if rows > left {
            return false;
        }
        left -= rows;
    }
    true
}

/// Whether no byte order mark begins a text.
fn is_unmarked(text: &[u8]) -> bool
    ensures { result ≡ true → IsUnmarked text.now }
{
    match text {
        [first, ..] => *first != 0xEF,
        [] => false,
    }
}

/// Whether a line is a right header.
fn is_header(alloc: Global, program: &Checked, line: &[u8]) -> bool
    requires line { EndsLine line.now }
    requires size { length line.now ≤ 67108864 }
    ensures { result ≡ true → IsHeaderLine program.now.vars line.now }
{
    if !is_unmarked(line) || line.contains(&b'"') {
        return false;
    }
    match plc_rows::read_cases(alloc, line, program) {
        Ok(cases) => cases.cases.is_empty(),
        Err(_) => false,
    }
}

/// The cases of a text, read in at most `workers` pieces beside each other. `None` if the text breaks a rule or cannot be cut into
/// pieces, or memory runs out.
fn read_by<R: Threads + Sync>(
    rt: &R,
    alloc: Global,
    text: &[u8],
    program: &Checked,
    workers: u32,
) -> Option<Cases>
    requires workers { 0 < workers }
    requires size { length text.now ≤ 67108864 }
    ensures { IfSome result (λ c. CasesOf program.now.vars text.now (cases_of c.cases)) }
{
    let end = first_line(text)?;
    let header = &text[..end];
    if !is_header(alloc, program, header) {
        return None;
    }
    let pieces = pieces(alloc, &text[end..], scan_column(header), workers).ok()?;
    let parts = parts_of(rt, alloc, program, header, pieces.as_slice()).ok()?;
    let cases = together(alloc, parts)?;
    if !are_few(cases.as_slice()) {
        return None;
    }
    Some(Cases { cases })
}

/// The cases of a text of at most 64 MiB, as `plc_rows::read_cases` reads them, by at most `workers` threads. One thread alone reads a text
/// that breaks a rule, and one with quotes or a byte order mark.
pub fn read_cases<R: Threads + Sync>(
    rt: &R,
    alloc: Global,
    text: &[u8],
    program: &Checked,
    workers: u32,
) -> Result<Cases, RowErr>
    requires workers { 1 ≤ workers }
    requires size { length text.now ≤ 67108864 }
    ensures cases { IfOk result (λ c. CasesOf program.now.vars text.now (cases_of c.cases)) }
    ensures refused { IfErr result (IsFirstCase program.now.vars text.now) }
{
    if workers > 1 {
        if let Some(cases) = read_by(rt, alloc, text, program, workers) {
            return Ok(cases);
        }
    }
    plc_rows::read_cases(alloc, text, program)
}
