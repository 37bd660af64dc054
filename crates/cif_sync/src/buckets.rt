//! Lists of automata, one for each event, which are filled automaton by automaton.

ghost use Rattle.std.specs.Prelude.{◌≡◌, [], replicate, slice_index_or, IfOk, OnOk};
ghost use Rattle.cif_sync.specs.Buckets.{ends_in, with_last, noted, all_noted};

use cif_base::{Items, Memory};
use std::alloc::Global;

/// As many empty lists as there are events.
pub fn empty_buckets(alloc: Global, events: usize) -> Result<Items<Items<u32>>, Memory>
    ensures { IfOk result (λ all. all ≡ replicate events []) }
{
    let mut all = Items::new(alloc);
    for _event in 0..events {
        all.push(Items::new(alloc))?;
    }
    Ok(all)
}

fn is_last(numbers: &Items<u32>, number: u32) -> bool
    ensures { result ≡ ends_in number numbers.now }
{
    match numbers.last() {
        Some(last) => *last == number,
        None => false,
    }
}

/// Puts a number at the end, unless it stands there.
fn add_last(numbers: &mut Items<u32>, number: u32) -> Result<(), Memory>
    ensures { OnOk result (numbers.new ≡ with_last number numbers.old) }
{
    if !is_last(numbers, number) {
        numbers.push(number)?;
    }
    Ok(())
}

/// Notes an automaton for an event.
pub fn note(
    alloc: Global,
    buckets: &mut Items<Items<u32>>,
    number: u32,
    event: u32,
) -> Result<(), Memory>
    ensures { OnOk result (buckets.new ≡ noted number event buckets.old) }
{
    let at = event as usize;
    if at < buckets.len() {
        let mut bucket = buckets.replace(at, Items::new(alloc));
        add_last(&mut bucket, number)?;
        buckets.set(at, bucket);
    }
    Ok(())
}

/// Notes an automaton for each of the events.
pub fn note_all(
    alloc: Global,
    buckets: &mut Items<Items<u32>>,
    number: u32,
    events: &[u32],
) -> Result<(), Memory>
    ensures { OnOk result (buckets.new ≡ all_noted number events.now buckets.old) }
{
    for event in events {
        note(alloc, buckets, number, *event)?;
    }
    Ok(())
}

/// A copy of the list of an event, in no more memory than it needs.
pub fn bucket_at(
    alloc: Global,
    buckets: &Items<Items<u32>>,
    event: usize,
) -> Result<Items<u32>, Memory>
    ensures { IfOk result (λ bucket. bucket ≡ slice_index_or buckets.now event []) }
{
    match buckets.get(event) {
        Some(bucket) => bucket.copy(alloc),
        None => Ok(Items::new(alloc)),
    }
}
