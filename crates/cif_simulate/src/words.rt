//! The words of `simulate`, which are read by hand.

ghost use Rattle.std.specs.Prelude.{◌≡◌, ℕ, [], ◌∷◌, None, IfSome, map, string_bytes};
ghost use Rattle.cif_simulate.specs.Words as spec;
ghost use Rattle.cif_simulate.specs.Words.{IsSimulate, IsSteps};
ghost use Rattle.cif_simulate.specs.Requests.{simulate_of};

use crate::request::{FirstSteps, Simulate, Which};
use cif_base::read_int;

/// The most steps that `--first` gives.
const MOST_STEPS: i64 = 1_000_000;

/// A number of steps in canonical decimal.
fn steps_of(word: &str) -> Option<u32>
    ensures some { IfSome result (λ n. IsSteps word.now n) }
    ensures none { result ≡ None → (n : ℕ) → IsSteps word.now n → ⊥ }
{
    let steps = read_int(word.as_bytes())?;
    if steps < 0 {
        return None;
    }
    if steps > MOST_STEPS {
        return None;
    }
    Some(steps as u32)
}

/// Reads `simulate FILE SCRIPT`.
fn of_script<'a>(command: &str, file: &'a str, script: &'a str) -> Option<Simulate<'a>>
    ensures some { IfSome result (λ q. IsSimulate (command.now ∷ file.now ∷ script.now ∷ []) (simulate_of q)) }
    ensures none { result ≡ None → (q : spec.Simulate) → IsSimulate (command.now ∷ file.now ∷ script.now ∷ []) q → ⊥ }
{
    if command != "simulate" || file.is_empty() {
        return None;
    }
    if script.is_empty() {
        return None;
    }
    if script == "--first" {
        return None;
    }
    Some(Simulate {
        file,
        which: Which::Script(script),
    })
}

/// Reads `simulate FILE --first N`.
fn of_first<'a>(command: &str, file: &'a str, option: &str, number: &str) -> Option<Simulate<'a>>
    ensures some { IfSome result (λ q. IsSimulate (command.now ∷ file.now ∷ option.now ∷ number.now ∷ []) (simulate_of q)) }
    ensures none { result ≡ None → (q : spec.Simulate) →
        IsSimulate (command.now ∷ file.now ∷ option.now ∷ number.now ∷ []) q → ⊥ }
{
    if command != "simulate" || file.is_empty() || option != "--first" {
        return None;
    }
    let count = steps_of(number)?;
    Some(Simulate {
        file,
        which: Which::First(FirstSteps { count }),
    })
}

/// Reads `simulate FILE SCRIPT` or `simulate FILE --first N`; `None` for other words.
pub fn read_words(words: &[String]) -> Option<Simulate<'_>>
    ensures some { IfSome result (λ q. IsSimulate (map string_bytes words.now) (simulate_of q)) }
    ensures none { result ≡ None → (q : spec.Simulate) → IsSimulate (map string_bytes words.now) q → ⊥ }
{
    match words {
        [command, file, script] => of_script(command.as_str(), file.as_str(), script.as_str()),
        [command, file, option, number] => of_first(
            command.as_str(),
            file.as_str(),
            option.as_str(),
            number.as_str(),
        ),
        [] | [_] | [_, _] | [_, _, _, _, _, ..] => None,
    }
}
