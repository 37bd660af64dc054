//! The words of `check`, which are read by hand.

ghost use Rattle.std.specs.Prelude.{◌≡◌, None, IfSome, map, string_bytes};
ghost use Rattle.cif_check.specs.Words as spec;
ghost use Rattle.cif_check.specs.Words.{IsCheck};
ghost use Rattle.cif_check.specs.Checks.{check_of};

/// What `check` is asked for.
#[derive(Drop)]
pub struct Check<'a> {
    pub file: &'a str,
}

/// What `check FILE` asks for; `None` where the words are no such command line.
pub fn read_words(words: &[String]) -> Option<Check<'_>>
    ensures some { IfSome result (λ k. IsCheck (map string_bytes words.now) (check_of k)) }
    ensures none { result ≡ None → (k : spec.Check) → IsCheck (map string_bytes words.now) k → ⊥ }
{
    match words {
        [command, file] => {
            if command.as_str() != "check" || file.as_str().is_empty() {
                return None;
            }
            Some(Check {
                file: file.as_str(),
            })
        }
        [] | [_] | [_, _, _, ..] => None,
    }
}
