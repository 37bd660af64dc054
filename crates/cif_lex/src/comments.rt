//! Comments.

ghost use Rattle.cif_lex.specs.Cutting.{Finds, slash_found};

use crate::found::{Fault, Found};
use crate::lines::split_line;
use grammar::after_pair;

/// The comment that begins with a `/`, by the text after that.
#[tactic(auto, unfolding(crate::specs::Cutting::slash_found))]
pub fn comment_at(text: &[u8]) -> Found<'_>
    ensures { Finds result (slash_found text.now) }
{
    match text {
        [b'/', line @ ..] => Ok((None, split_line(line).1)),
        [b'*', inner @ ..] => match after_pair(inner, b'*', b'/') {
            Some(rest) => Ok((None, rest)),
            None => Err(Fault::OpenComment),
        },
        _ => Err(Fault::BadByte),
    }
}
