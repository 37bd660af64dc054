//! Exclusions and state invariants for each choice of a net.

ghost use Rattle.std.specs.Prelude.{◌≡◌, ◌++◌, ◌<◌, ◌^◌, [], length, map, slice_index_or, IfOk, OnOk};
ghost use Rattle.std.specs.List.{range_with_len};
ghost use Rattle.cif_net_expr.specs.View.{view};
ghost use Rattle.cif_net_model.specs.Listing.{all_hold, linear_of, guarded_of};
ghost use Rattle.cif_net.specs.View.{net_tree, choice_tree, linear_tree};
ghost use Rattle.cif_guard.specs.Tests.{members, exclusion_places, guarded_from, all_guarded};

use crate::exclusions::{exclusions_by_event, tests_of};
use cif_base::{Items, Memory};
use cif_net::{Choice, Guarded, Linear, Net, NetExpr, NetForm, Plain};
use cif_sync::places_at;
use std::alloc::Global;
use std::mem;

/// The net with its choices, to the test of each of which what exclusions ask of its event is added, and the numbers of all
/// state invariants. The time is linear in what is written.
#[tactic(auto, using(crate::proofs::GuardLaws::guarded_are))]
pub fn guard(alloc: Global, plain: Plain, linear: Linear) -> Result<Guarded, Memory>
    requires { linear_tree linear ≡ linear_of (net_tree plain.net) }
    ensures plain { IfOk result (λ g. g.plain ≡ plain) }
    ensures choices { IfOk result
        (λ g. map choice_tree g.choices ≡ guarded_of (net_tree plain.net)) }
{
    let Linear { choices } = linear;
    let choices = guarded_choices(alloc, &plain.net, choices)?;
    Ok(Guarded { plain, choices })
}

#[tactic(auto, using(crate::proofs::GuardLaws::few_exclusions))]
fn guarded_choices(
    alloc: Global,
    net: &Net,
    choices: Items<Choice>,
) -> Result<Items<Choice>, Memory>
    ensures { IfOk result
        (λ all. map choice_tree all ≡ all_guarded (net_tree net.now) (map choice_tree choices)) }
{
    let places = exclusions_by_event(alloc, net.events.len(), net.exclusions.as_slice())?;
    let mut choices = choices.into_vec();
    for choice in choices.iter_mut() {
        guard_choice(alloc, net, &places, choice)?;
    }
    Ok(Items::from_vec(choices))
}

/// Changes a choice in its place: taken apart and made again it is slow to check.
fn guard_choice(
    alloc: Global,
    net: &Net,
    places: &Items<Items<u32>>,
    choice: &mut Choice,
) -> Result<(), Memory>
    ensures { OnOk result
        (choice_tree choice.new ≡ guarded_from (net_tree net.now) places.now (choice_tree choice.old)) }
{
    let found = places_at(places, choice.event);
    let tests = tests_of(alloc, &net.exclusions, found)?;
    conjoin(alloc, &mut choice.test, tests)?;
    choice.invariants = numbers_below(alloc, net.invariants.len())?;
    Ok(())
}

/// Makes a test the conjunction of its members and of more tests.
#[tactic(auto, using(crate::proofs::GuardLaws::conjoined))]
fn conjoin(alloc: Global, test: &mut NetExpr, tests: Items<NetExpr>) -> Result<(), Memory>
    ensures { OnOk result
        (view test.new ≡ all_hold (members (view test.old) ++ map view tests)) }
{
    let mut all = members_of(alloc, mem::replace(test, nothing()))?;
    all.append(tests)?;
    test.form = NetForm::And(all);
    test.at = 0;
    Ok(())
}

fn nothing() -> NetExpr {
    NetExpr {
        form: NetForm::Received,
        at: 0,
    }
}

/// The members of a conjunction, or an expression alone.
fn members_of(alloc: Global, test: NetExpr) -> Result<Items<NetExpr>, Memory>
    ensures { IfOk result (λ all. map view all ≡ members (view test)) }
{
    let NetExpr { form, at } = test;
    match form {
        NetForm::And(parts) => Ok(parts),
        form => Items::only(alloc, NetExpr { form, at }),
    }
}

fn numbers_below(alloc: Global, count: usize) -> Result<Items<u32>, Memory>
    requires { count < 2 ^ 32 }
    ensures { IfOk result (λ all. all ≡ range_with_len 0 count) }
{
    let mut all = Items::new(alloc);
    for number in 0..count {
        all.push(number as u32)?;
    }
    Ok(all)
}
