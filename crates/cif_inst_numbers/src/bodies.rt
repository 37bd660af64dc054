//! What each body declares: for each name its rank among those of its sort that the body declares, and how many there are.

ghost use Rattle.std.specs.Prelude.{◌≡◌, ◌<◌, map, length, slice_get, IfOk};
ghost use Rattle.cif_scope.specs.Written.{body_of_written};
ghost use Rattle.cif_inst_numbers.specs.Counting as counting;

use crate::counts::{Counted, Counts, counted_what};
use cif_base::{Items, Memory};
use cif_scope::{Inside, Scopes, Written};
use std::alloc::Global;

/// For each name of a body how many of its sort the body declares before it, and how many of each it declares.
#[derive(Drop)]
pub struct Ranked {
    pub ranks: Items<u32>,
    pub counts: Counts,
}

/// The same for each body.
#[derive(Drop)]
pub struct Bodies {
    pub ranks: Items<Items<u32>>,
    pub counts: Items<Counts>,
}

fn rank(counts: &Counts, counted: Option<Counted>) -> u32
    ensures { result ≡ counting.rank counts.now counted }
{
    match counted {
        Some(counted) => counts.of(counted),
        None => 0,
    }
}

fn ranks_of(alloc: Global, scopes: &Scopes, body: u32) -> Result<Ranked, Memory>
    requires { body < length scopes.now.table.scopes }
    ensures ranks { IfOk result (λ r. r.ranks ≡ counting.ranks_of scopes.now body) }
    ensures counts { IfOk result (λ r. r.counts ≡ counting.counts_of scopes.now body) }
{
    let mut ranks = Items::new(alloc);
    let mut counts = Counts::none();
    for slot in 0..scopes.slots(body) {
        let counted = counted_what(scopes.what(body, slot));
        ranks.push(rank(&counts, counted))?;
        counts = counts.plus(&Counts::one(counted))?;
    }
    Ok(Ranked { ranks, counts })
}

/// One automaton for the body of one.
fn automaton(written: &[Written<'_>], body: u32) -> Counts
    ensures { result ≡ counting.automaton_at (slice_get (map body_of_written written.now) body) }
{
    let mut counts = Counts::none();
    if let Some(one) = written.get(body as usize) {
        match one.inside {
            Inside::Group(_) => {}
            Inside::Automaton(_) => counts.automata = 1,
        }
    }
    counts
}

pub fn all_bodies(alloc: Global, scopes: &Scopes, written: &[Written<'_>]) -> Result<Bodies, Memory>
    ensures ranks { IfOk result (λ all. all.ranks ≡ counting.all_ranks scopes.now) }
    ensures counts { IfOk result (λ all. all.counts ≡ counting.all_counts scopes.now (map body_of_written written.now)) }
{
    let mut ranks = Items::new(alloc);
    let mut counts = Items::new(alloc);
    for body in 0..scopes.bodies() {
        let one = ranks_of(alloc, scopes, body)?;
        ranks.push(one.ranks)?;
        counts.push(one.counts.plus(&automaton(written, body))?)?;
    }
    Ok(Bodies { ranks, counts })
}
