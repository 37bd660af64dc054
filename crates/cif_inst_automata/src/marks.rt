//! Marks of events: each has that of the last automaton in which it stood somewhere, so that none is searched for in a list.

ghost use Rattle.std.specs.Prelude.{◌≡◌};
ghost use Rattle.std.specs.List.{list_any, position_or_len};
ghost use Rattle.cif_inst_automata.specs.Marks as marked;

use cif_base::Items;

/// Gives each of these events a mark.
#[tactic(auto, using(crate::proofs::MarkLaws::past_set))]
pub(crate) fn give_mark(marks: &mut Items<u32>, mark: u32, events: &[u32])
    ensures { marks.new ≡ marked.marked mark events.now marks.old }
{
    for event in events {
        let at = *event as usize;
        if at < marks.len() {
            marks.set(at, mark);
        }
    }
}

/// The mark of an event, and 0 past the end.
fn mark_of(marks: &Items<u32>, event: u32) -> u32
    ensures { result ≡ marked.mark_of marks.now event }
{
    match marks.get(event as usize) {
        Some(mark) => *mark,
        None => 0,
    }
}

/// The place of the first of these events that has another mark, and their number where there is none.
pub(crate) fn first_unmarked(marks: &Items<u32>, mark: u32, events: &[u32]) -> usize
    ensures { result ≡ position_or_len (marked.is_unmarked mark marks.now) events.now }
{
    for (place, event) in events.iter().enumerate() {
        if mark_of(marks, *event) != mark {
            return place;
        }
    }
    events.len()
}

/// Whether one of these events has the mark.
pub(crate) fn has_mark(marks: &Items<u32>, mark: u32, events: &[u32]) -> bool
    ensures { result ≡ list_any (marked.is_marked mark marks.now) events.now }
{
    for event in events {
        if mark_of(marks, *event) == mark {
            return true;
        }
    }
    false
}
