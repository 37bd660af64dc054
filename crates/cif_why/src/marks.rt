//! Marks of the values of edges.

ghost use Rattle.std.specs.Prelude.{◌≡◌, true};
ghost use Rattle.cif_why.specs.Marks.{at_place, marked_edge, marked_row};

use cif_base::Items;
use std::alloc::Global;

/// Sets the marks of some values of an edge.
pub(crate) fn mark_edge(
    alloc: Global,
    marks: &mut Items<Items<Items<bool>>>,
    automaton: u32,
    edge: u32,
    numbers: &[u32],
)
    ensures { marks.new ≡ marked_edge automaton edge numbers.now marks.old }
{
    let at = automaton as usize;
    if at < marks.len() {
        let mut rows = marks.replace(at, Items::new(alloc));
        mark_row(alloc, &mut rows, edge, numbers);
        marks.set(at, rows);
    }
}

fn mark_row(alloc: Global, rows: &mut Items<Items<bool>>, edge: u32, numbers: &[u32])
    ensures { rows.new ≡ at_place (marked_row numbers.now) edge rows.old }
{
    let at = edge as usize;
    if at < rows.len() {
        let mut row = rows.replace(at, Items::new(alloc));
        mark_all(&mut row, numbers);
        rows.set(at, row);
    }
}

/// Sets the marks of these numbers.
fn mark_all(row: &mut Items<bool>, numbers: &[u32])
    ensures { row.new ≡ marked_row numbers.now row.old }
{
    for number in numbers {
        mark(row, *number as usize);
    }
}

/// Sets the mark at a place, if there is one.
#[tactic(auto, using(crate::proofs::MarkLaws::set_true, crate::proofs::MarkLaws::place_past))]
pub(crate) fn mark(row: &mut Items<bool>, at: usize)
    ensures { row.new ≡ at_place (λ b. true) at row.old }
{
    if at < row.len() {
        row.set(at, true);
    }
}
