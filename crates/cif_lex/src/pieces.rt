//! The piece at the front of a text.

ghost use Rattle.grammar.specs.Pieces.{run_of};
ghost use Rattle.grammar.specs.Classes.{digit, wordy};
ghost use Rattle.cif_lex.specs.Cutting as found;
ghost use Rattle.cif_lex.specs.Cutting.{Finds};

use crate::comments::comment_at;
use crate::found::{Fault, Found};
use crate::numbers::is_small;
use crate::signs::sign_at;
use crate::token::TokenKind;
use crate::words::reserved_word;
use grammar::{begins_word, is_blank, split_number, split_word};

/// The word at the front.
fn word_at(text: &[u8]) -> Found<'_>
    ensures { Finds result (found.word_found (run_of wordy text.now)) }
{
    let (word, rest) = split_word(text);
    let kind = match reserved_word(word) {
        Some(word) => TokenKind::Reserved(word),
        None => TokenKind::Id,
    };
    Ok((Some(kind), rest))
}

/// The word after a `$`.
#[tactic(auto, unfolding(crate::specs::Cutting::escaped_found))]
fn escaped_at(text: &[u8]) -> Found<'_>
    ensures { Finds result (found.escaped_found text.now) }
{
    match text {
        [byte, ..] if begins_word(*byte) => Ok((Some(TokenKind::Id), split_word(text).1)),
        _ => Err(Fault::BadByte),
    }
}

/// The number of one digit or more at the front, where that isn't 0.
fn number_at(text: &[u8]) -> Found<'_>
    ensures { Finds result (found.number_found (run_of digit text.now)) }
{
    let (digits, rest) = split_number(text);
    if is_small(digits) {
        Ok((Some(TokenKind::Number), rest))
    } else {
        Err(Fault::NumberTooBig)
    }
}

/// The sign that begins with a byte, of which `rest` has all but that.
fn sign_found(byte: u8, rest: &[u8]) -> Found<'_>
    ensures { Finds result (found.sign_found (found.sign_of byte rest.now)) }
{
    match sign_at(byte, rest) {
        Some((mark, rest)) => Ok((Some(TokenKind::Sign(mark)), rest)),
        None => Err(Fault::BadByte),
    }
}

/// The piece at the front.
#[tactic(auto, unfolding(crate::specs::Cutting::found_of))]
pub fn front(text: &[u8]) -> Found<'_>
    ensures { Finds result (found.found_of text.now) }
{
    let [byte, rest @ ..] = text else {
        return Err(Fault::BadByte);
    };
    match *byte {
        byte if is_blank(byte) => Ok((None, rest)),
        byte if begins_word(byte) => word_at(text),
        b'$' => escaped_at(rest),
        b'0' => Ok((Some(TokenKind::Number), rest)),
        b'1'..=b'9' => number_at(text),
        b'/' => comment_at(rest),
        byte => sign_found(byte, rest),
    }
}
