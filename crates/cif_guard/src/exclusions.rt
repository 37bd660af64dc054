//! The tests that exclusions ask of the state before an event.

ghost use Rattle.std.specs.Prelude.{◌≡◌, ◌<◌, ◌^◌, length, map, IfOk};
ghost use Rattle.cif_net_expr.specs.View.{view};
ghost use Rattle.cif_net_model.specs.Net as n;
ghost use Rattle.cif_net_model.specs.Listing.{exclusion_test};
ghost use Rattle.cif_net.specs.View.{exclusion_tree};
ghost use Rattle.cif_guard.specs.Tests.{test_at, tests_at, exclusion_events, exclusion_places};

use cif_base::{Boxed, Items, Memory};
use cif_net::{Exclusion, NetExpr, NetForm};
use cif_sync::places_by_event;
use std::alloc::Global;

/// For each event the places of its exclusions.
#[tactic(auto, using(crate::proofs::GuardLaws::exclusions_counted))]
pub fn exclusions_by_event(
    alloc: Global,
    events: usize,
    exclusions: &[Exclusion],
) -> Result<Items<Items<u32>>, Memory>
    requires { length exclusions.now < 2 ^ 32 }
    ensures { IfOk result (λ all. all ≡ exclusion_places events (map exclusion_tree exclusions.now)) }
{
    let excluded = excluded_events(alloc, exclusions)?;
    places_by_event(alloc, events, excluded.as_slice())
}

fn excluded_events(alloc: Global, exclusions: &[Exclusion]) -> Result<Items<u32>, Memory>
    ensures { IfOk result (λ all. all ≡ exclusion_events (map exclusion_tree exclusions.now)) }
{
    let mut all = Items::new(alloc);
    for exclusion in exclusions {
        all.push(exclusion.event)?;
    }
    Ok(all)
}

/// The tests of the exclusions at these places.
pub fn tests_of(
    alloc: Global,
    exclusions: &Items<Exclusion>,
    places: &[u32],
) -> Result<Items<NetExpr>, Memory>
    ensures { IfOk result
        (λ all. map view all ≡ tests_at (map exclusion_tree exclusions.now) places.now) }
{
    let mut all = Items::new(alloc);
    for place in places {
        all.append(tests_there(alloc, exclusions, *place)?)?;
    }
    Ok(all)
}

/// The test of the exclusion at a place, if there is one.
fn tests_there(
    alloc: Global,
    exclusions: &Items<Exclusion>,
    place: u32,
) -> Result<Items<NetExpr>, Memory>
    ensures { IfOk result
        (λ all. map view all ≡ test_at (map exclusion_tree exclusions.now) place) }
{
    match exclusions.get(place as usize) {
        Some(exclusion) => Items::only(alloc, test_of(alloc, exclusion)?.into_inner()),
        None => Ok(Items::new(alloc)),
    }
}

/// What the event needs, or that it is not disabled.
#[tactic(auto, using(crate::proofs::GuardLaws::denied))]
fn test_of(alloc: Global, exclusion: &Exclusion) -> Result<Boxed<NetExpr>, Memory>
    ensures { IfOk result (λ e. view e ≡ exclusion_test (exclusion_tree exclusion.now)) }
{
    let pred = exclusion.pred.copy(alloc)?;
    if exclusion.allows {
        return Ok(pred);
    }
    Boxed::new(
        alloc,
        NetExpr {
            form: NetForm::Not(pred),
            at: 0,
        },
    )
}
