//! Signs by their bytes.

ghost use Rattle.std.specs.Prelude.{◌≡◌};
ghost use Rattle.std.specs.Option.{option_map};
ghost use Rattle.cif_lex.specs.Cutting as cutting;

use crate::token::Mark;

/// A sign, and the text after it.
type Found<'a> = Option<(Mark, &'a [u8])>;

/// The sign that is this byte.
fn single(byte: u8) -> Option<Mark>
    ensures { result ≡ cutting.single byte }
{
    let mark = match byte {
        b'.' => Mark::Dot,
        b',' => Mark::Comma,
        b';' => Mark::Semicolon,
        b':' => Mark::Colon,
        b'(' => Mark::OpenParen,
        b')' => Mark::CloseParen,
        b'[' => Mark::OpenBracket,
        b']' => Mark::CloseBracket,
        b'{' => Mark::OpenBrace,
        b'}' => Mark::CloseBrace,
        b'+' => Mark::Plus,
        b'-' => Mark::Minus,
        b'*' => Mark::Star,
        b'=' => Mark::Equal,
        b'<' => Mark::Less,
        b'>' => Mark::Greater,
        b'!' => Mark::Exclamation,
        b'?' => Mark::Question,
        _ => return None,
    };
    Some(mark)
}

/// The sign that is these two bytes.
fn pair(first: u8, second: u8) -> Option<Mark>
    ensures { result ≡ cutting.pair first second }
{
    match (first, second) {
        (b':', b'=') => Some(Mark::Assign),
        (b'.', b'.') => Some(Mark::Range),
        (b'!', b'=') => Some(Mark::NotEqual),
        (b'<', b'=') => Some(Mark::LessEqual),
        (b'>', b'=') => Some(Mark::GreaterEqual),
        (b'=', b'>') => Some(Mark::Implies),
        _ => None,
    }
}

/// A sign of three bytes, of which `rest` has all but the first.
#[tactic(auto, unfolding(crate::specs::Cutting::triple_of))]
fn triple_at(byte: u8, rest: &[u8]) -> Found<'_>
    ensures { option_map (λ s. (s.0, s.1.now)) result ≡ cutting.triple_of byte rest.now }
{
    match rest {
        [second, third, left @ ..] if byte == b'<' && *second == b'=' && *third == b'>' => {
            Some((Mark::Iff, left))
        }
        _ => None,
    }
}

/// A sign of two bytes, of which `rest` has all but the first.
#[tactic(auto, unfolding(crate::specs::Cutting::double_of))]
fn double_at(byte: u8, rest: &[u8]) -> Found<'_>
    ensures { option_map (λ s. (s.0, s.1.now)) result ≡ cutting.double_of byte rest.now }
{
    match rest {
        [second, left @ ..] => pair(byte, *second).map(|mark| (mark, left)),
        [] => None,
    }
}

/// The longest sign that begins with a byte, of which `rest` has all but the first.
#[tactic(auto, unfolding(crate::specs::Cutting::sign_of))]
pub fn sign_at(byte: u8, rest: &[u8]) -> Found<'_>
    ensures { option_map (λ s. (s.0, s.1.now)) result ≡ cutting.sign_of byte rest.now }
{
    if let Some(found) = triple_at(byte, rest) {
        return Some(found);
    }
    if let Some(found) = double_at(byte, rest) {
        return Some(found);
    }
    single(byte).map(|mark| (mark, rest))
}
