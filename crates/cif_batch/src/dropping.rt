//! Cases dropped by workers.

ghost use Rattle.std.specs.Prelude.{◌≤◌};

use cif_base::Items;
use plc_rows::{Cases, Rows};
use std::alloc::Global;
use std::thread;
use std::thread::Threads;

/// Gives back the memory of cases, in at most `workers` threads: each row has memory of its own, and one thread alone would take longer
/// for that than for all else that it does beside the workers.
pub fn drop_cases<R: Threads + Sync>(rt: &R, alloc: Global, cases: Cases, workers: u32)
    requires workers { 1 ≤ workers }
{
    let Cases { cases } = cases;
    let mut cases = cases.into_vec();
    let clear = |_place: usize, case: &mut Rows| { case.rows = Items::new(alloc) };
    thread::for_each_mut(rt, cases.as_mut_slice(), workers as usize, &clear);
}
