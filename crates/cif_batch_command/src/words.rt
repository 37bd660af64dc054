//! The words of `batch`, which are read by hand.

ghost use Rattle.std.specs.Prelude.{◌≡◌, IfSome, None, map, string_bytes};
ghost use Rattle.cif_batch_command.specs.Words as spec;
ghost use Rattle.cif_batch_command.specs.Words.{IsBatch};
ghost use Rattle.cif_batch_command.specs.Batches.{batch_of};

/// What `batch` is asked for.
#[derive(Drop)]
pub struct Batch<'a> {
    pub st: &'a str,
    pub cases: &'a str,
}

/// What `batch ST CASES` asks for; `None` where the words are no such command line.
pub fn read_words(words: &[String]) -> Option<Batch<'_>>
    ensures some { IfSome result (λ b. IsBatch (map string_bytes words.now) (batch_of b)) }
    ensures none { result ≡ None → (b : spec.Batch) → IsBatch (map string_bytes words.now) b → ⊥ }
{
    match words {
        [command, st, cases] => {
            if command.as_str() != "batch" || st.as_str().is_empty() || cases.as_str().is_empty() {
                return None;
            }
            Some(Batch {
                st: st.as_str(),
                cases: cases.as_str(),
            })
        }
        [] | [_] | [_, _] | [_, _, _, _, ..] => None,
    }
}
