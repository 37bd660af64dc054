//! Where the choices of each event begin in the list of all choices.

ghost use Rattle.std.specs.Prelude.{◌≡◌, ◌≢◌, ◌<◌, ◌≤◌, ℕ, IfOk, Some, length, slice_get};
ghost use Rattle.cif_net.specs.declared.listing.Choice.{Choice};
ghost use Rattle.cif_eval.specs.Choices.{system_of};
ghost use Rattle.cif_sim.specs.Starts.{AreStarts};

use cif_base::{Items, Memory};
use cif_net::{Choice, Guarded, Net};
use std::alloc::Global;

/// The number of events. A net has at most 100,000 objects.
pub(crate) fn count_events(net: &Net) -> u32
    ensures { result ≡ length net.now.events }
{
    net.events.len() as u32
}

/// The number of choices, or `Memory` beyond 32 bits, since only their memory bounds them.
fn count_choices(choices: &[Choice]) -> Result<u32, Memory>
    ensures { IfOk result (λ count. count ≡ length choices.now) }
{
    let count = choices.len();
    match u32::try_from(count) {
        Ok(number) => Ok(number),
        Err(_) => Err(Memory),
    }
}

/// The end of the choices of an event, which begin at `from`.
fn end_of(choices: &[Choice], from: u32, count: u32, event: u32) -> u32
    requires from { from ≤ count }
    requires count { count ≡ length choices.now }
    ensures from { from ≤ result }
    ensures count { result ≤ count }
    ensures same { (k : ℕ) (c : Choice) → from ≤ k → k < result → slice_get choices.now k ≡ Some c → c.event ≡ event }
    ensures other { (c : Choice) → slice_get choices.now result ≡ Some c → c.event ≢ event }
{
    for k in from..count {
        if choices[k as usize].event != event {
            return k;
        }
    }
    count
}

/// The number of the first choice of each event, and then that of all choices.
pub(crate) fn starts(alloc: Global, guarded: &Guarded, events: u32) -> Result<Items<u32>, Memory>
    requires { events ≡ length guarded.now.plain.net.events }
    ensures { IfOk result (AreStarts (system_of guarded.now)) }
{
    let choices = guarded.choices.as_slice();
    let count = count_choices(choices)?;
    let mut starts = Items::new(alloc);
    let mut next = 0;
    starts.push(next)?;
    for event in 0..events {
        next = end_of(choices, next, count, event);
        starts.push(next)?;
    }
    Ok(starts)
}
