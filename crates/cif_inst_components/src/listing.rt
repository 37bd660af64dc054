//! The list of the components.

ghost use Rattle.std.specs.Prelude.{◌≡◌, ◌<◌, ◌≤◌, ◌++◌, ℕ, Err, IfOk, OnOk};
ghost use Rattle.cif_inst_components.specs.declared.error.ComponentsErr.TheVariants.{TooManyObjects};
ghost use Rattle.cif_inst_components.specs.Listing as listing;

use crate::components::{Component, Place};
use crate::error::ComponentsErr;
use crate::kids::Kid;
use crate::sizes::{TOO_MANY, with_more};
use cif_base::{Items, Memory};
use cif_scope::number;
use std::alloc::Global;

/// A component that is still to be listed, and how deep components may still nest in it.
#[derive(Clone, Copy, Drop)]
struct Waiting {
    stands: Place,
    body: u32,
    depth: u32,
}

/// The bodies by what stands in them and by their sizes.
#[derive(Clone, Copy)]
pub struct Bodies<'a> {
    pub kids: &'a [Items<Kid>],
    pub sizes: &'a [u32],
}

fn size_of(sizes: &[u32], body: u32) -> usize
    ensures { result ≡ listing.size_in sizes.now body }
{
    match sizes.get(body as usize) {
        Some(size) => *size as usize,
        None => 0,
    }
}

/// These are to be listed next, the first in the text first.
fn wait_for_kids(
    waiting: &mut Vec<Waiting>,
    kids: &[Kid],
    component: u32,
    depth: u32,
) -> Result<(), Memory>
    ensures { OnOk result (waiting.new.items
        ≡ waiting.old.items ++ listing.waiting_for component depth kids.now) }
{
    let mut left = kids.len();
    while left > 0 {
        left -= 1;
        let Kid { slot, body } = kids[left];
        let stands = Place { component, slot };
        waiting.push(Waiting {
            stands,
            body,
            depth,
        })?;
    }
    Ok(())
}

/// What stands in a component is to be listed next, where components may nest in it.
fn wait_for(
    waiting: &mut Vec<Waiting>,
    all: &[Items<Kid>],
    component: u32,
    body: u32,
    depth: u32,
) -> Result<(), Memory>
    ensures { OnOk result (waiting.new.items ≡ waiting.old.items ++ listing.waiting_in all.now component body depth) }
{
    if depth == 0 {
        return Ok(());
    }
    match all.get(body as usize) {
        Some(kids) => wait_for_kids(waiting, kids.as_slice(), component, depth - 1),
        None => Ok(()),
    }
}

/// The components in text order, each before those in it, or that there are too many objects in them.
pub fn listed(alloc: Global, bodies: &Bodies) -> Result<Items<Component>, ComponentsErr>
    ensures all { IfOk result (λ all. all ≡ listing.listed bodies.now.kids.now) }
    ensures few { IfOk result (λ all. listing.all_objects bodies.now.sizes.now all < TOO_MANY) }
    ensures too_many { (count : ℕ) → result ≡ Err (TooManyObjects count) →
        (count ≡ TOO_MANY) × (TOO_MANY ≤ listing.all_objects bodies.now.sizes.now (listing.listed bodies.now.kids.now)) }
{
    let mut all = Items::new(alloc);
    let mut waiting = Vec::new(alloc);
    let mut count = with_more(1, size_of(bodies.sizes, 0));
    all.push(Component {
        body: 0,
        stands: None,
    })?;
    wait_for(&mut waiting, bodies.kids, 0, 0, TOO_MANY - 1)?;
    while count < TOO_MANY {
        let Some(next) = waiting.pop() else {
            return Ok(all);
        };
        let component = number(all.len())?;
        all.push(Component {
            body: next.body,
            stands: Some(next.stands),
        })?;
        count = with_more(count + 1, size_of(bodies.sizes, next.body));
        wait_for(&mut waiting, bodies.kids, component, next.body, next.depth)?;
    }
    Err(ComponentsErr::TooManyObjects { count })
}
