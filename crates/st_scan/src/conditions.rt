//! Whether conditions hold. Tests of variables are tried only as far as one decides.

ghost use Rattle.std.specs.Prelude.{◌≡◌, not};
ghost use Rattle.st_ast.specs.Values.{differ};
ghost use Rattle.st_scan.specs.PlacedTruths.{truth_at, all_at, any_at};
ghost use Rattle.st_scan.specs.PlacedValues.{value_at, decided};
ghost use Rattle.st_check.specs.PlacedView.{test_view, tests_view, cond_view};
ghost use Rattle.st_scan.specs.Told.{told_truth};

use crate::values::{ValueFault, is_set, is_so, read, value};
use st_check::{PlacedCond, PlacedTest};

/// A truth, or the other one.
#[inline(always)]
fn turned_if(turned: bool, truth: bool) -> bool
    ensures { result ≡ differ turned truth }
{
    turned ^ truth
}

/// Whether a test holds.
#[cycle(truths)]
#[inline(always)]
fn holds(test: &PlacedTest, memory: &[i64]) -> bool
    ensures { result ≡ truth_at (test_view test.now) memory.now }
{
    match test {
        PlacedTest::Compare {
            is,
            holds,
            turned,
            place,
            number,
        } => turned_if(*turned, is_so(*is, *holds, read(memory, *place), *number)),
        PlacedTest::Flag { turned, place } => turned_if(*turned, is_set(read(memory, *place))),
        PlacedTest::Not(test) => fails(test.get(), memory),
        PlacedTest::All(tests) => all_hold(tests.as_slice(), memory),
        PlacedTest::Any(tests) => any_holds(tests.as_slice(), memory),
    }
}

#[cycle(truths)]
fn fails(test: &PlacedTest, memory: &[i64]) -> bool
    ensures { result ≡ not (truth_at (test_view test.now) memory.now) }
{
    !holds(test, memory)
}

#[cycle(truths)]
fn all_hold(tests: &[PlacedTest], memory: &[i64]) -> bool
    ensures { result ≡ all_at (tests_view tests.now) memory.now }
{
    for test in tests {
        if !holds(test, memory) {
            return false;
        }
    }
    true
}

#[cycle(truths)]
fn any_holds(tests: &[PlacedTest], memory: &[i64]) -> bool
    ensures { result ≡ any_at (tests_view tests.now) memory.now }
{
    for test in tests {
        if holds(test, memory) {
            return true;
        }
    }
    false
}

/// Whether a condition is TRUE, or why it has no value.
#[inline(always)]
pub fn test(cond: &PlacedCond, memory: &[i64], fault: &mut ValueFault) -> Option<bool>
    ensures { told_truth result fault.new ≡ decided (value_at (cond_view cond.now) memory.now) }
{
    match cond {
        PlacedCond::Test(test) => Some(holds(test, memory)),
        PlacedCond::Value(expr) => match value(expr, memory, fault) {
            Some(value) => Some(is_set(value)),
            None => None,
        },
    }
}
