//! The rest of a line.

ghost use Rattle.std.specs.Prelude.{◌≡◌, ◌≤◌, not, position, unwrap_or, length};
ghost use Rattle.grammar.specs.Pieces.{run_of};
ghost use Rattle.cif_lex.specs.Tokens as tokens;

/// Whether a byte is no line feed.
fn is_in_line(byte: u8) -> bool
    ensures { result ≡ tokens.is_in_line byte }
{
    byte != b'\n'
}

/// The place of the first line feed.
fn line_end(text: &[u8]) -> Option<usize>
    ensures { result ≡ position (λ b. not (tokens.is_in_line b)) text.now }
{
    text.iter().position(|byte| !is_in_line(*byte))
}

/// How many bytes stand before the first line feed.
#[tactic(auto, using(grammar::proofs::Runs::first_within))]
fn line_len(text: &[u8]) -> usize
    ensures count { result ≡ unwrap_or (position (λ b. not (tokens.is_in_line b)) text.now) (length text.now) }
    ensures within { result ≤ length text.now }
{
    line_end(text).unwrap_or(text.len())
}

/// The bytes before the first line feed, and the bytes from it on.
#[tactic(auto, using(grammar::proofs::Runs::run_is))]
pub fn split_line(text: &[u8]) -> (&[u8], &[u8])
    ensures { run_of tokens.is_in_line text.now ≡ (result.0.now, result.1.now) }
{
    text.split_at(line_len(text))
}
