//! The places at which events stand in a list.

ghost use Rattle.std.specs.Prelude.{◌≡◌, ◌<◌, ◌^◌, [], length, slice_index_or, IfOk};
ghost use Rattle.cif_sync.specs.Columns.{places_in};

use crate::buckets::{empty_buckets, note};
use cif_base::{Items, Memory};
use std::alloc::Global;

/// For each event below the count the places at which it stands in a list, in ascending order. The time is linear.
pub fn places_by_event(
    alloc: Global,
    count: usize,
    events: &[u32],
) -> Result<Items<Items<u32>>, Memory>
    requires { length events.now < 2 ^ 32 }
    ensures { IfOk result (λ all. all ≡ places_in count events.now) }
{
    let mut all = empty_buckets(alloc, count)?;
    for (place, event) in events.iter().enumerate() {
        note(alloc, &mut all, place as u32, *event)?;
    }
    Ok(all)
}

/// The list of an event, which is empty where there is no such event.
pub fn places_at(places: &Items<Items<u32>>, event: u32) -> &[u32]
    ensures { result.now ≡ slice_index_or places.now event [] }
{
    match places.get(event as usize) {
        Some(found) => found.as_slice(),
        None => &[],
    }
}
