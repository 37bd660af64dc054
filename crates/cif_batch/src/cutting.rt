//! The text of cases, cut where cases begin.

ghost use Rattle.std.specs.Prelude.{◌≡◌, ◌≤◌, ◌<◌, length, take, map, IfOk, IfSome};
ghost use Rattle.cif_batch.specs.Cutting.{AreLines, EndsLine, text_of};

use std::alloc::{AllocError, Global};

/// The length of the first line, with its line feed.
pub fn first_line(text: &[u8]) -> Option<usize>
    ensures { IfSome result (λ n. (n ≤ length text.now) × EndsLine (take n text.now)) }
{
    for at in 0..text.len() {
        if text[at] == b'\n' {
            return Some(at + 1);
        }
    }
    None
}

/// The place of the column `scan` among those of a header; any place where it has none.
pub fn scan_column(header: &[u8]) -> usize {
    let mut place = 0;
    let mut begins = true;
    for (k, byte) in header.iter().enumerate() {
        if begins && header[k..].starts_with(b"scan".as_slice()) {
            return place;
        }
        begins = *byte == b',';
        if begins && place < k {
            place += 1;
        }
    }
    place
}

/// Whether the first line of a text seems to be the first row of a case, with the number 1 in that column.
fn seems_first(text: &[u8], scan: usize) -> bool {
    let mut columns = scan;
    for (k, byte) in text.iter().enumerate() {
        if columns == 0 {
            return *byte == b'1' && !matches!(text.get(k + 1), Some(b'0'..=b'9'));
        }
        if *byte == b'\n' {
            return false;
        }
        if *byte == b',' {
            columns -= 1;
        }
    }
    false
}

/// The end of the first line, of those that end behind `from`, behind which a case seems to begin.
fn next_case(text: &[u8], scan: usize, from: usize) -> Option<usize>
    ensures { IfSome result (λ n. (0 < n) × (n ≤ length text.now) × EndsLine (take n text.now)) }
{
    for at in from..text.len() {
        if text[at] == b'\n' && seems_first(&text[at + 1..], scan) {
            return Some(at + 1);
        }
    }
    None
}

/// The text in at most `most` pieces of whole cases, by the looks of it.
pub fn pieces(alloc: Global, text: &[u8], scan: usize, most: u32) -> Result<Vec<&[u8]>, AllocError>
    requires { 0 < most }
    ensures lines { IfOk result (λ pieces. AreLines pieces.items) }
    ensures whole { IfOk result (λ pieces. text_of pieces.items ≡ text.now) }
{
    let size = text.len() / most as usize;
    let mut pieces = Vec::new(alloc);
    let mut left = text;
    for _ in 1..most {
        let Some(end) = next_case(left, scan, size) else {
            break;
        };
        pieces.push(&left[..end])?;
        left = &left[end..];
    }
    pieces.push(left)?;
    Ok(pieces)
}
