//! A text as its tokens.

ghost use Rattle.std.specs.Prelude.{◌≡◌, ◌≤◌, min, map, length, option_map, All, IfOk, IfErr};
ghost use Rattle.std.specs.Option.{option_copied};
ghost use Rattle.grammar.specs.Pieces.{run_of, strip};
ghost use Rattle.grammar.specs.Classes.{digit, wordy};
ghost use Rattle.st_ast.specs.Tokens as k;
ghost use Rattle.st_read.specs.Lexing as lexing;
ghost use Rattle.st_read.specs.Lexing.{Finds, Lexes, refusal_of};
ghost use Rattle.st_read.specs.Marks.{IsMark, after_blanks, tokens_of};
ghost use Rattle.st_read.specs.Refusals.{RefusalDue};

use crate::error::StErr;
use crate::found::{Fault, Found};
use crate::marks::Mark;
use crate::words::{kind_of_word, value_of};
use cif_base::Items;
use grammar::{after_pair, begins_word, is_blank, is_digit, split_number, split_word};
use st_ast::TokenKind;
use std::alloc::Global;

/// A sign and its kind.
type Sign = (&'static [u8], TokenKind);

// The signs by their first byte, so that one is compared with few others; the longer ones come first.

static COLON: [Sign; 2] = [(b":=", TokenKind::Assigns), (b":", TokenKind::Colon)];

static LESS: [Sign; 3] = [
    (b"<>", TokenKind::Differs),
    (b"<=", TokenKind::AtMost),
    (b"<", TokenKind::Less),
];

static GREATER: [Sign; 2] = [(b">=", TokenKind::AtLeast), (b">", TokenKind::Greater)];

static SEMICOLON: [Sign; 1] = [(b";", TokenKind::Semicolon)];

static OPEN: [Sign; 1] = [(b"(", TokenKind::Open)];

static CLOSE: [Sign; 1] = [(b")", TokenKind::Close)];

static COMMA: [Sign; 1] = [(b",", TokenKind::Comma)];

static PLUS: [Sign; 1] = [(b"+", TokenKind::Plus)];

static DASH: [Sign; 1] = [(b"-", TokenKind::Dash)];

static TIMES: [Sign; 1] = [(b"*", TokenKind::Times)];

static SLASH: [Sign; 1] = [(b"/", TokenKind::Slash)];

static EQUALS: [Sign; 1] = [(b"=", TokenKind::Equals)];

static AND: [Sign; 1] = [(b"&", TokenKind::And)];

/// All signs with their kinds, the longer ones first.
static SIGNS: [Sign; 18] = [
    (b":=", TokenKind::Assigns),
    (b"..", TokenKind::Dots),
    (b"<>", TokenKind::Differs),
    (b"<=", TokenKind::AtMost),
    (b">=", TokenKind::AtLeast),
    (b";", TokenKind::Semicolon),
    (b":", TokenKind::Colon),
    (b"(", TokenKind::Open),
    (b")", TokenKind::Close),
    (b",", TokenKind::Comma),
    (b"+", TokenKind::Plus),
    (b"-", TokenKind::Dash),
    (b"*", TokenKind::Times),
    (b"/", TokenKind::Slash),
    (b"=", TokenKind::Equals),
    (b"<", TokenKind::Less),
    (b">", TokenKind::Greater),
    (b"&", TokenKind::And),
];

/// The word at the front.
fn word(text: &[u8]) -> Found<'_>
    ensures { Finds (λ x. (x.0, x.1.now)) result (lexing.worded (run_of wordy text.now)) }
{
    let (word, rest) = split_word(text);
    Ok((Some(kind_of_word(word)), rest))
}

/// The digits at the front.
#[tactic(auto, unfolding(crate::specs::Lexing::value_in))]
fn number(text: &[u8]) -> Found<'_>
    ensures { Finds (λ x. (x.0, x.1.now)) result (lexing.numbered (run_of digit text.now)) }
{
    let (digits, rest) = split_number(text);
    match value_of(digits) {
        Some(_value) => Ok((Some(TokenKind::Literal), rest)),
        None => Err(Fault::NumberTooBig),
    }
}

/// What follows a sign in a text that begins with it.
fn stripped<'a>(sign: &[u8], text: &'a [u8]) -> Option<&'a [u8]>
    ensures { option_copied result ≡ strip sign.now text.now }
{
    let mut left = sign;
    let mut right = text;
    loop {
        match left {
            [] => return Some(right),
            [a, more @ ..] => match right {
                [] => return None,
                [b, others @ ..] => {
                    if *a != *b {
                        return None;
                    }
                    left = more;
                    right = others;
                }
            },
        }
    }
}

/// The signs among which that at the front of a text is: those with its first byte, or all.
fn signs_for(text: &[u8]) -> &'static [Sign]
    ensures { lexing.entry_in (map (λ s. (s.0.now, s.1)) result.now) text.now ≡ lexing.entry_in k.sign_kinds text.now }
{
    let [byte, _rest @ ..] = text else {
        return &SIGNS;
    };
    match *byte {
        b':' => &COLON,
        b'<' => &LESS,
        b'>' => &GREATER,
        b';' => &SEMICOLON,
        b'(' => &OPEN,
        b')' => &CLOSE,
        b',' => &COMMA,
        b'+' => &PLUS,
        b'-' => &DASH,
        b'*' => &TIMES,
        b'/' => &SLASH,
        b'=' => &EQUALS,
        b'&' => &AND,
        _ => &SIGNS,
    }
}

/// The first of the signs that stands at the front, with its kind, and what is left.
fn first_sign<'a>(text: &'a [u8], signs: &[Sign]) -> Option<(Sign, &'a [u8])>
    ensures { option_map (λ w. ((w.0.0.now, w.0.1), w.1.now)) result ≡ lexing.entry_in (map (λ s. (s.0.now, s.1)) signs.now) text.now }
{
    for (sign, kind) in signs {
        if let Some(rest) = stripped(*sign, text) {
            return Some(((*sign, *kind), rest));
        }
    }
    None
}

/// The sign at the front.
#[tactic(auto, using(crate::proofs::Signs::sign_found, crate::proofs::Signs::no_sign))]
fn sign(text: &[u8]) -> Found<'_>
    ensures { Finds (λ x. (x.0, x.1.now)) result (lexing.signed (lexing.sign_of text.now)) }
{
    let Some(((_sign, kind), rest)) = first_sign(text, signs_for(text)) else {
        return Err(Fault::BadByte);
    };
    Ok((Some(kind), rest))
}

/// A comment, of which the first two bytes are read.
fn comment(text: &[u8]) -> Found<'_>
    ensures { Finds (λ x. (x.0, x.1.now)) result (lexing.commented (lexing.after_close text.now)) }
{
    match after_pair(text, b'*', b')') {
        Some(rest) => Ok((None, rest)),
        None => Err(Fault::OpenComment),
    }
}

/// What stands at the front.
#[tactic(auto, unfolding(crate::specs::Lexing::front_of))]
fn front(text: &[u8]) -> Found<'_>
    ensures { Finds (λ x. (x.0, x.1.now)) result (lexing.front_of text.now) }
{
    match text {
        [] => Err(Fault::BadByte),
        [byte, rest @ ..] if is_blank(*byte) => Ok((None, rest)),
        [byte, ..] if begins_word(*byte) => word(text),
        [byte, ..] if is_digit(*byte) => number(text),
        [one, two, rest @ ..] if *one == b'(' && *two == b'*' => comment(rest),
        _ => sign(text),
    }
}

/// The error for what is found at a place.
fn refusal(fault: Fault, at: u32) -> StErr
    ensures { result ≡ refusal_of fault at }
{
    match fault {
        Fault::BadByte => StErr::StBadByte { at },
        Fault::NumberTooBig => StErr::StNumberTooBig { at },
        Fault::OpenComment => StErr::StOpenComment { at },
    }
}

/// What follows the blanks at the front of a text.
#[tactic(auto, unfolding(crate::specs::Marks::after_blanks))]
fn without_blanks(text: &[u8]) -> &[u8]
    ensures { result.now ≡ after_blanks text.now }
{
    let mut rest = text;
    loop {
        match rest {
            [byte, left @ ..] if is_blank(*byte) => rest = left,
            _ => return rest,
        }
    }
}

/// How long a mark says that a token is: `u16::MAX` for one of so many bytes or more.
fn marked_length(length: usize) -> u16
    ensures { result ≡ min length 65535 }
{
    if length < usize::from(u16::MAX) {
        length as u16
    } else {
        u16::MAX
    }
}

/// The places of the tokens of a text in which no number is too big, with their kinds.
#[tactic(auto, using(crate::proofs::Marked::marked_none, crate::proofs::Marked::marked_token, crate::proofs::Marked::marked_skip, crate::proofs::Marked::blanks_shorter, crate::proofs::Marked::later_shorter))]
pub fn token_marks(alloc: Global, text: &[u8]) -> Result<Items<Mark>, StErr>
    requires { length text.now ≤ 16777216 }
    ensures tokens { IfOk result (λ found. Lexes text.now (tokens_of text.now found)) }
    ensures marks { IfOk result (λ found. All (IsMark text.now) found) }
    ensures refused { IfErr result (RefusalDue text.now) }
{
    let mut marks = Items::new(alloc);
    let mut rest = without_blanks(text);
    while !rest.is_empty() {
        let at = (text.len() - rest.len()) as u32;
        let (token, left) = match front(rest) {
            Ok(found) => found,
            Err(fault) => return Err(refusal(fault, at)),
        };
        if let Some(kind) = token {
            let length = marked_length(rest.len().saturating_sub(left.len()));
            marks.push(Mark { at, length, kind })?;
        }
        rest = without_blanks(left);
    }
    Ok(marks)
}
