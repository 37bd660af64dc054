//! Reserved words.

ghost use Rattle.std.specs.Prelude.{◌≡◌, map};
ghost use Rattle.grammar.specs.Pieces.{same};
ghost use Rattle.cif_lex.specs.Tokens.{find_text};
ghost use Rattle.cif_lex.specs.Cutting as cutting;

use crate::token::Word;

/// The bytes of a reserved word, and the word.
type Entry = (&'static [u8], Word);

// The tables are by the number of letters, so that a word is compared with few others.

static OF_TWO: [Entry; 4] = [
    (b"do", Word::Do),
    (b"if", Word::If),
    (b"or", Word::Or),
    (b"in", Word::Unused),
];

static OF_THREE: [Entry; 18] = [
    (b"abs", Word::Abs),
    (b"alg", Word::Alg),
    (b"and", Word::And),
    (b"def", Word::Def),
    (b"div", Word::Div),
    (b"end", Word::End),
    (b"int", Word::Int),
    (b"max", Word::Max),
    (b"min", Word::Min),
    (b"mod", Word::Mod),
    (b"not", Word::Not),
    (b"any", Word::Unused),
    (b"der", Word::Unused),
    (b"now", Word::Unused),
    (b"pow", Word::Unused),
    (b"set", Word::Unused),
    (b"sub", Word::Unused),
    (b"tau", Word::Unused),
];

static OF_FOUR: [Entry; 19] = [
    (b"bool", Word::Bool),
    (b"disc", Word::Disc),
    (b"edge", Word::Edge),
    (b"elif", Word::Elif),
    (b"else", Word::Else),
    (b"enum", Word::Enum),
    (b"goto", Word::Goto),
    (b"true", Word::True),
    (b"type", Word::Type),
    (b"void", Word::Void),
    (b"when", Word::When),
    (b"cont", Word::Unused),
    (b"dict", Word::Unused),
    (b"dist", Word::Unused),
    (b"func", Word::Unused),
    (b"list", Word::Unused),
    (b"real", Word::Unused),
    (b"self", Word::Unused),
    (b"time", Word::Unused),
];

static OF_FIVE: [Entry; 9] = [
    (b"const", Word::Const),
    (b"event", Word::Event),
    (b"false", Word::False),
    (b"group", Word::Group),
    (b"input", Word::Input),
    (b"needs", Word::Needs),
    (b"plant", Word::Plant),
    (b"print", Word::Unused),
    (b"tuple", Word::Unused),
];

static OF_SIX: [Entry; 5] = [
    (b"marked", Word::Marked),
    (b"import", Word::Unused),
    (b"string", Word::Unused),
    (b"switch", Word::Unused),
    (b"urgent", Word::Unused),
];

static LONGER: [Entry; 13] = [
    (b"alphabet", Word::Alphabet),
    (b"automaton", Word::Automaton),
    (b"controllable", Word::Controllable),
    (b"disables", Word::Disables),
    (b"equation", Word::Equation),
    (b"initial", Word::Initial),
    (b"invariant", Word::Invariant),
    (b"location", Word::Location),
    (b"monitor", Word::Monitor),
    (b"requirement", Word::Requirement),
    (b"supervisor", Word::Supervisor),
    (b"uncontrollable", Word::Uncontrollable),
    (b"namespace", Word::Unused),
];

/// Whether two texts are the same.
#[tactic(auto, using(grammar::proofs::Texts::same_is))]
fn is_same(text: &[u8], other: &[u8]) -> bool
    ensures { result ≡ same text.now other.now }
{
    text == other
}

/// The word that a table has for a text.
fn find(table: &[Entry], text: &[u8]) -> Option<Word>
    ensures { result ≡ find_text (map (λ e. (e.0.now, e.1)) table.now) text.now }
{
    for (letters, word) in table {
        if is_same(*letters, text) {
            return Some(*word);
        }
    }
    None
}

/// The reserved word that a text is.
#[tactic(auto, using(crate::proofs::WordLaws::words_of_two, crate::proofs::WordLaws::words_of_three, crate::proofs::WordLaws::words_of_four, crate::proofs::WordLaws::words_of_five, crate::proofs::WordLaws::words_of_six, crate::proofs::WordLaws::longer_words))]
pub fn reserved_word(text: &[u8]) -> Option<Word>
    ensures { result ≡ cutting.reserved_word text.now }
{
    match text.len() {
        2 => find(&OF_TWO, text),
        3 => find(&OF_THREE, text),
        4 => find(&OF_FOUR, text),
        5 => find(&OF_FIVE, text),
        6 => find(&OF_SIX, text),
        _ => find(&LONGER, text),
    }
}
