//! The kinds of words, and the numbers that digits stand for.

ghost use Rattle.std.specs.Prelude.{◌≡◌, ◌≤◌, ◌==◌, map, position, unwrap_or, length};
ghost use Rattle.st_ast.specs.Names as names;
ghost use Rattle.st_ast.specs.Tokens as tokens;
ghost use Rattle.st_read.specs.Lexing as lexing;

use st_ast::TokenKind;

/// A reserved word in capitals, and its kind.
type Entry = (&'static [u8], TokenKind);

// The tables are by the number of letters, so that a word is compared with few others.

static OF_TWO: [Entry; 7] = [
    (b"IF", TokenKind::If),
    (b"DO", TokenKind::Do),
    (b"OR", TokenKind::Or),
    (b"AT", TokenKind::Outside),
    (b"OF", TokenKind::Outside),
    (b"TO", TokenKind::Outside),
    (b"BY", TokenKind::Outside),
];

static OF_THREE: [Entry; 10] = [
    (b"VAR", TokenKind::Var),
    (b"NOT", TokenKind::Not),
    (b"AND", TokenKind::And),
    (b"XOR", TokenKind::Xor),
    (b"MOD", TokenKind::Mod),
    (b"ABS", TokenKind::Abs),
    (b"MIN", TokenKind::Min),
    (b"MAX", TokenKind::Max),
    (b"SEL", TokenKind::Sel),
    (b"FOR", TokenKind::Outside),
];

static OF_FOUR: [Entry; 11] = [
    (b"BOOL", TokenKind::Bool),
    (b"LINT", TokenKind::Lint),
    (b"TRUE", TokenKind::True),
    (b"THEN", TokenKind::Then),
    (b"ELSE", TokenKind::Else),
    (b"DINT", TokenKind::Outside),
    (b"CASE", TokenKind::Outside),
    (b"EXIT", TokenKind::Outside),
    (b"REAL", TokenKind::Outside),
    (b"TIME", TokenKind::Outside),
    (b"TYPE", TokenKind::Outside),
];

static OF_FIVE: [Entry; 6] = [
    (b"FALSE", TokenKind::False),
    (b"ELSIF", TokenKind::Elsif),
    (b"WHILE", TokenKind::While),
    (b"UNTIL", TokenKind::Outside),
    (b"ARRAY", TokenKind::Outside),
    (b"LREAL", TokenKind::Outside),
];

static OF_SIX: [Entry; 5] = [
    (b"END_IF", TokenKind::EndIf),
    (b"REPEAT", TokenKind::Outside),
    (b"RETURN", TokenKind::Outside),
    (b"STRUCT", TokenKind::Outside),
    (b"STRING", TokenKind::Outside),
];

static LONGER: [Entry; 12] = [
    (b"PROGRAM", TokenKind::Program),
    (b"END_PROGRAM", TokenKind::EndProgram),
    (b"CONSTANT", TokenKind::Constant),
    (b"VAR_INPUT", TokenKind::VarInput),
    (b"VAR_OUTPUT", TokenKind::VarOutput),
    (b"END_VAR", TokenKind::EndVar),
    (b"END_WHILE", TokenKind::EndWhile),
    (b"END_CASE", TokenKind::Outside),
    (b"END_FOR", TokenKind::Outside),
    (b"END_REPEAT", TokenKind::Outside),
    (b"FUNCTION", TokenKind::Outside),
    (b"FUNCTION_BLOCK", TokenKind::Outside),
];

/// The greatest number of a program.
const GREATEST: u128 = 9_223_372_036_854_775_807;

/// Whether two words are the same, ignoring the case of letters.
#[tactic(auto, using(crate::proofs::WordLaws::same_where_folded))]
fn same_name(one: &[u8], other: &[u8]) -> bool
    ensures { result ≡ names.same_name one.now other.now }
{
    one.eq_ignore_ascii_case(other)
}

/// The place of the first `_`.
fn first_underscore(word: &[u8]) -> Option<usize>
    ensures { result ≡ position (λ b. b == 95) word.now }
{
    word.iter().position(|byte| *byte == b'_')
}

/// How many bytes stand before the first `_`.
#[tactic(auto, using(grammar::proofs::Runs::first_within))]
fn plain_len(word: &[u8]) -> usize
    ensures count { result ≡ unwrap_or (position (λ b. b == 95) word.now) (length word.now) }
    ensures within { result ≤ length word.now }
{
    first_underscore(word).unwrap_or(word.len())
}

/// What stands from the first `_` on.
#[tactic(auto, using(crate::proofs::Identifiers::identifier_from))]
fn from_underscore(word: &[u8]) -> &[u8]
    ensures same { tokens.is_identifier word.now ≡ tokens.is_identifier result.now }
    ensures shorter { length result.now ≤ length word.now }
{
    word.split_at(plain_len(word)).1
}

/// Whether no two underscores adjoin, and the last byte is none.
fn is_identifier(word: &[u8]) -> bool
    ensures { result ≡ tokens.is_identifier word.now }
{
    let mut rest = word;
    loop {
        match from_underscore(rest) {
            [] => return true,
            [last] => return *last != b'_',
            [one, left @ ..] => {
                if *one == b'_' && left[0] == b'_' {
                    return false;
                }
                rest = left;
            }
        }
    }
}

/// The kind that a table has for a word.
fn in_table(table: &[Entry], word: &[u8]) -> Option<TokenKind>
    ensures { unwrap_or result (lexing.name_kind word.now)
        ≡ tokens.in_table (map (λ p. (p.0.now, p.1)) table.now) word.now (lexing.name_kind word.now) }
{
    for (name, kind) in table {
        if same_name(name, word) {
            return Some(*kind);
        }
    }
    None
}

/// The kind of a word that is not reserved.
fn kind_of_name(word: &[u8]) -> TokenKind
    ensures { result ≡ lexing.name_kind word.now }
{
    if is_identifier(word) {
        TokenKind::Name
    } else {
        TokenKind::Outside
    }
}

/// The kind of a reserved word.
#[tactic(auto, using(crate::proofs::WordLaws::words_of_two, crate::proofs::WordLaws::words_of_three, crate::proofs::WordLaws::words_of_four, crate::proofs::WordLaws::words_of_five, crate::proofs::WordLaws::words_of_six, crate::proofs::WordLaws::longer_words))]
fn kind_of_reserved(word: &[u8]) -> Option<TokenKind>
    ensures { unwrap_or result (lexing.name_kind word.now) ≡ lexing.word_kind word.now }
{
    match word.len() {
        2 => in_table(&OF_TWO, word),
        3 => in_table(&OF_THREE, word),
        4 => in_table(&OF_FOUR, word),
        5 => in_table(&OF_FIVE, word),
        6 => in_table(&OF_SIX, word),
        _ => in_table(&LONGER, word),
    }
}

pub fn kind_of_word(word: &[u8]) -> TokenKind
    ensures { result ≡ lexing.word_kind word.now }
{
    match kind_of_reserved(word) {
        Some(kind) => kind,
        None => kind_of_name(word),
    }
}

/// The number that digits stand for, where a program may have it.
#[tactic(auto, using(crate::proofs::Numbers::too_great, crate::proofs::Numbers::small_enough))]
pub fn value_of(digits: &[u8]) -> Option<u64>
    ensures { result ≡ lexing.value_in digits.now }
{
    let mut value: u128 = 0;
    for digit in digits {
        if value > GREATEST {
            return None;
        }
        value = 10 * value + u128::from(digit.saturating_sub(b'0'));
    }
    if value > GREATEST {
        None
    } else {
        Some(value as u64)
    }
}
