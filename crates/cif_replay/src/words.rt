//! The words of `replay`, which are read by hand.

ghost use Rattle.std.specs.Prelude.{◌≡◌, IfSome, None, map, string_bytes};
ghost use Rattle.cif_replay.specs.Words as spec;
ghost use Rattle.cif_replay.specs.Words.{IsReplay};
ghost use Rattle.cif_replay.specs.Replays.{replay_of};

/// What `replay` is asked for.
#[derive(Drop)]
pub struct Replay<'a> {
    pub st: &'a str,
    pub rows: &'a str,
}

/// What `replay ST ROWS` asks for; `None` where the words are no such command line.
pub fn read_words(words: &[String]) -> Option<Replay<'_>>
    ensures some { IfSome result (λ r. IsReplay (map string_bytes words.now) (replay_of r)) }
    ensures none { result ≡ None → (r : spec.Replay) → IsReplay (map string_bytes words.now) r → ⊥ }
{
    match words {
        [command, st, rows] => {
            if command.as_str() != "replay" || st.as_str().is_empty() || rows.as_str().is_empty() {
                return None;
            }
            Some(Replay {
                st: st.as_str(),
                rows: rows.as_str(),
            })
        }
        [] | [_] | [_, _] | [_, _, _, _, ..] => None,
    }
}
