//! The words of `why`, which are read by hand.

ghost use Rattle.std.specs.Prelude.{◌≡◌, None, IfSome, map, string_bytes};
ghost use Rattle.cif_why_command.specs.Words as spec;
ghost use Rattle.cif_why_command.specs.Words.{IsWhy};
ghost use Rattle.cif_why_command.specs.Requests.{why_of};

use crate::request::Why;

/// Reads `why FILE SCRIPT EVENT`; `None` for other words.
pub fn read_words(words: &[String]) -> Option<Why<'_>>
    ensures some { IfSome result (λ q. IsWhy (map string_bytes words.now) (why_of q)) }
    ensures none { result ≡ None → (q : spec.Why) → IsWhy (map string_bytes words.now) q → ⊥ }
{
    match words {
        [command, file, script, event] => {
            if command.as_str() != "why" || file.as_str().is_empty() || script.as_str().is_empty() {
                return None;
            }
            Some(Why {
                file: file.as_str(),
                script: script.as_str(),
                event: event.as_str(),
            })
        }
        [] | [_] | [_, _] | [_, _, _] | [_, _, _, _, _, ..] => None,
    }
}
