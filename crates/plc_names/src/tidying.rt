//! The path of an object, tidied to the last part of a name.

ghost use Rattle.std.specs.Prelude.{◌≡◌, true, take, IfOk};
ghost use Rattle.plc_model.specs.Names.{runs_joined, end_trimmed, or_x, most_bytes};

use cif_base::{Memory, Text};
use std::alloc::Global;

/// The most bytes of a path that stand in a name.
const MOST_BYTES: usize = 40;

/// The first bytes of the path with each run of bytes that aren't ASCII letters or digits as one `_`, and none for a run at
/// the front. It reads no further than it keeps.
pub fn first_bytes(alloc: Global, path: &[u8]) -> Result<Text, Memory>
    ensures { IfOk result (λ t. t ≡ take most_bytes (runs_joined true path.now)) }
{
    let mut text = Text::new(alloc);
    let mut in_run = true;
    for byte in path {
        if text.len() == MOST_BYTES {
            return Ok(text);
        }
        let kept = byte.is_ascii_alphanumeric();
        if kept {
            text.push(*byte)?;
        } else if !in_run {
            text.push(b'_')?;
        }
        in_run = !kept;
    }
    Ok(text)
}

/// The text without a last `_`.
#[tactic(auto, using(crate::proofs::OnePass::ends))]
pub fn without_last(text: &[u8]) -> &[u8]
    ensures { result.now ≡ end_trimmed text.now }
{
    let Some((last, front)) = text.split_last() else {
        return text;
    };
    if *last == b'_' { front } else { text }
}

/// The text, or `x` in place of the empty one.
pub fn or_letter(text: &[u8]) -> &[u8]
    ensures { result.now ≡ or_x text.now }
{
    if text.is_empty() { b"x" } else { text }
}
