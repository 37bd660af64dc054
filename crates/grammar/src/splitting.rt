//! The bytes of a class at the front of a text, and what follows a pair of bytes.

ghost use Rattle.std.specs.Prelude.{◌≡◌, ◌≤◌, not, position, unwrap_or, length, option_map};
ghost use Rattle.grammar.specs.Pieces.{run_of, rest_after};
ghost use Rattle.grammar.specs.Classes.{digit, wordy};

use crate::bytes::{is_digit, is_wordy};

/// The place of the first byte that is in no word.
#[inline]
fn word_end(text: &[u8]) -> Option<usize>
    ensures { result ≡ position (λ b. not (wordy b)) text.now }
{
    text.iter().position(|byte| !is_wordy(*byte))
}

/// The place of the first byte that is no digit.
#[inline]
fn number_end(text: &[u8]) -> Option<usize>
    ensures { result ≡ position (λ b. not (digit b)) text.now }
{
    text.iter().position(|byte| !is_digit(*byte))
}

/// How many letters, `_` and digits stand at the front.
#[inline]
#[tactic(auto, using(crate::proofs::Runs::first_within))]
fn wordy_len(text: &[u8]) -> usize
    ensures count { result ≡ unwrap_or (position (λ b. not (wordy b)) text.now) (length text.now) }
    ensures within { result ≤ length text.now }
{
    word_end(text).unwrap_or(text.len())
}

/// How many digits stand at the front.
#[inline]
#[tactic(auto, using(crate::proofs::Runs::first_within))]
fn digits_len(text: &[u8]) -> usize
    ensures count { result ≡ unwrap_or (position (λ b. not (digit b)) text.now) (length text.now) }
    ensures within { result ≤ length text.now }
{
    number_end(text).unwrap_or(text.len())
}

/// The letters, `_` and digits at the front, and the bytes after them.
#[inline]
#[tactic(auto, using(crate::proofs::Runs::run_is))]
pub fn split_word(text: &[u8]) -> (&[u8], &[u8])
    ensures { run_of wordy text.now ≡ (result.0.now, result.1.now) }
{
    text.split_at(wordy_len(text))
}

/// The digits at the front, and the bytes after them.
#[inline]
#[tactic(auto, using(crate::proofs::Runs::run_is))]
pub fn split_number(text: &[u8]) -> (&[u8], &[u8])
    ensures { run_of digit text.now ≡ (result.0.now, result.1.now) }
{
    text.split_at(digits_len(text))
}

/// What follows the first place where these two bytes stand, one directly after the other.
#[inline]
#[tactic(auto, unfolding(crate::specs::Pieces::rest_after))]
pub fn after_pair(text: &[u8], first: u8, second: u8) -> Option<&[u8]>
    ensures { option_map (λ rest. rest.now) result ≡ rest_after first second text.now }
{
    let mut rest = text;
    loop {
        match rest {
            [one, two, after @ ..] if *one == first && *two == second => return Some(after),
            [_, after @ ..] => rest = after,
            [] => return None,
        }
    }
}
