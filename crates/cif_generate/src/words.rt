//! The words of `generate`, which are read by hand.

ghost use Rattle.std.specs.Prelude.{◌≡◌, ◌∷◌, [], ℕ, IfSome, None, map, string_bytes};
ghost use Rattle.cif_generate.specs.Words as spec;
ghost use Rattle.cif_generate.specs.Words.{AreOptions, IsGenerate, IsRounds};
ghost use Rattle.cif_generate.specs.Generates.{generate_of};

use crate::request::Generate;
use cif_base::read_int;
use plc_frame::Bounds;

/// The rounds of a class that no option names.
const ROUNDS: u32 = 100;

/// The most rounds that an option gives.
const MOST_ROUNDS: i64 = 10_000;

/// A number of rounds in canonical decimal.
fn rounds_of(word: &str) -> Option<u32>
    ensures some { IfSome result (λ n. IsRounds word.now n) }
    ensures none { result ≡ None → (n : ℕ) → IsRounds word.now n → ⊥ }
{
    let rounds = read_int(word.as_bytes())?;
    if rounds < 1 {
        return None;
    }
    if rounds > MOST_ROUNDS {
        return None;
    }
    Some(rounds as u32)
}

/// The bounds of one option and its number.
fn one_option(option: &str, number: &str) -> Option<Bounds>
    ensures some { IfSome result (λ b. AreOptions (option.now ∷ number.now ∷ []) b.unc b.con) }
    ensures none { result ≡ None → (unc con : ℕ) → AreOptions (option.now ∷ number.now ∷ []) unc con → ⊥ }
{
    let rounds = rounds_of(number)?;
    if option == "--unc" {
        Some(Bounds {
            unc: rounds,
            con: ROUNDS,
        })
    } else if option == "--con" {
        Some(Bounds {
            unc: ROUNDS,
            con: rounds,
        })
    } else {
        None
    }
}

/// The bounds of two options, each with its number.
fn two_options(first: &str, number: &str, second: &str, other: &str) -> Option<Bounds>
    ensures some { IfSome result (λ b.
        AreOptions (first.now ∷ number.now ∷ second.now ∷ other.now ∷ []) b.unc b.con) }
    ensures none { result ≡ None → (unc con : ℕ) →
        AreOptions (first.now ∷ number.now ∷ second.now ∷ other.now ∷ []) unc con → ⊥ }
{
    let rounds = rounds_of(number)?;
    let others = rounds_of(other)?;
    if first == "--unc" && second == "--con" {
        Some(Bounds {
            unc: rounds,
            con: others,
        })
    } else if first == "--con" && second == "--unc" {
        Some(Bounds {
            unc: others,
            con: rounds,
        })
    } else {
        None
    }
}

/// The bounds that the words after the file give.
fn bounds_of(words: &[String]) -> Option<Bounds>
    ensures some { IfSome result (λ b. AreOptions (map string_bytes words.now) b.unc b.con) }
    ensures none { result ≡ None → (unc con : ℕ) → AreOptions (map string_bytes words.now) unc con → ⊥ }
{
    match words {
        [] => Some(Bounds {
            unc: ROUNDS,
            con: ROUNDS,
        }),
        [option, number] => one_option(option.as_str(), number.as_str()),
        [first, number, second, other] => two_options(
            first.as_str(),
            number.as_str(),
            second.as_str(),
            other.as_str(),
        ),
        [_] | [_, _, _] | [_, _, _, _, _, ..] => None,
    }
}

/// What `generate FILE [--unc N] [--con N]` asks for; `None` where the words are no such command line.
#[tactic(auto, using(crate::proofs::WordLemmas::few_unc, crate::proofs::WordLemmas::few_con))]
pub fn read_words(words: &[String]) -> Option<Generate<'_>>
    ensures some { IfSome result (λ g. IsGenerate (map string_bytes words.now) (generate_of g)) }
    ensures none { result ≡ None → (g : spec.Generate) → IsGenerate (map string_bytes words.now) g → ⊥ }
{
    match words {
        [] | [_] => None,
        [command, file, options @ ..] => {
            if command.as_str() != "generate" || file.as_str().is_empty() {
                return None;
            }
            let bounds = bounds_of(options)?;
            Some(Generate {
                file: file.as_str(),
                bounds,
            })
        }
    }
}
