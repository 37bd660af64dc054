//! Conditions as tests of variables, where they are such.

ghost use Rattle.std.specs.Prelude.{◌≡◌, map, IfOk, IfSome};
ghost use Rattle.st_check.specs.PlacedTree as to;
ghost use Rattle.st_check.specs.PlacedTests.{expr_of, exprs_of};
ghost use Rattle.st_check.specs.PlacedView.{expr_view, test_view, tests_view, cond_view};
ghost use Rattle.st_check.specs.declared.placed.Single.TheVariants as one;

use crate::placed::{Join, PlacedCond, PlacedExpr, PlacedTest, Relation, Single};
use cif_base::{Boxed, Items, Memory};
use std::alloc::Global;

/// A test under `NOT`.
fn turned(alloc: Global, test: PlacedTest) -> Result<Boxed<PlacedTest>, Memory>
    ensures { IfOk result (λ t. expr_of (test_view t) ≡ to.single one.Not (expr_of (test_view test))) }
{
    let turned = match test {
        PlacedTest::Compare {
            is,
            holds,
            turned: false,
            place,
            number,
        } => PlacedTest::Compare {
            is,
            holds,
            turned: true,
            place,
            number,
        },
        PlacedTest::Flag {
            turned: false,
            place,
        } => PlacedTest::Flag {
            turned: true,
            place,
        },
        test => PlacedTest::Not(Boxed::new(alloc, test)?),
    };
    Boxed::new(alloc, turned)
}

/// Two operands of a relation as a test.
fn compared(
    alloc: Global,
    is: Relation,
    holds: bool,
    first: &PlacedExpr,
    second: &PlacedExpr,
) -> Result<Option<Boxed<PlacedTest>>, Memory>
    ensures { IfOk result (λ found. IfSome found (λ t. expr_of (test_view t) ≡ to.pair (expr_view first.now) (to.is is holds) (expr_view second.now))) }
{
    let (PlacedExpr::Place(place), PlacedExpr::Number(number)) = (first, second) else {
        return Ok(None);
    };
    let test = PlacedTest::Compare {
        is,
        holds,
        turned: false,
        place: *place,
        number: *number,
    };
    Ok(Some(Boxed::new(alloc, test)?))
}

/// An expression as a test, if it is one.
#[cycle(testing)]
fn test_of(alloc: Global, expr: &PlacedExpr) -> Result<Option<Boxed<PlacedTest>>, Memory>
    ensures { IfOk result (λ found. IfSome found (λ t. expr_of (test_view t) ≡ expr_view expr.now)) }
{
    match expr {
        PlacedExpr::Place(place) => {
            let test = PlacedTest::Flag {
                turned: false,
                place: *place,
            };
            Ok(Some(Boxed::new(alloc, test)?))
        }
        PlacedExpr::Single {
            op: Single::Not,
            operand,
        } => match test_of(alloc, operand.get())? {
            Some(test) => Ok(Some(turned(alloc, test.into_inner())?)),
            None => Ok(None),
        },
        PlacedExpr::Related {
            is,
            holds,
            operands,
        } => {
            let pair = operands.get();
            compared(alloc, *is, *holds, &pair.first, &pair.second)
        }
        PlacedExpr::Joined {
            join: Join::And,
            operands,
        } => match tests_of(alloc, operands.get().all.as_slice())? {
            Some(tests) => Ok(Some(Boxed::new(alloc, PlacedTest::All(tests))?)),
            None => Ok(None),
        },
        PlacedExpr::Joined {
            join: Join::Or,
            operands,
        } => match tests_of(alloc, operands.get().all.as_slice())? {
            Some(tests) => Ok(Some(Boxed::new(alloc, PlacedTest::Any(tests))?)),
            None => Ok(None),
        },
        _ => Ok(None),
    }
}

/// The operands of one level as tests, if all are such.
#[cycle(testing)]
fn tests_of(alloc: Global, operands: &[PlacedExpr]) -> Result<Option<Items<PlacedTest>>, Memory>
    ensures { IfOk result (λ found. IfSome found (λ ts. exprs_of (tests_view ts) ≡ map expr_view operands.now)) }
{
    let mut found = Vec::with_capacity(alloc, operands.len())?;
    for operand in operands {
        let Some(test) = test_of(alloc, operand)? else {
            return Ok(None);
        };
        found.push(test.into_inner())?;
    }
    Ok(Some(Items::from_vec(found)))
}

/// An expression as a condition.
pub fn condition(alloc: Global, expr: PlacedExpr) -> Result<Boxed<PlacedCond>, Memory>
    ensures { IfOk result (λ c. cond_view c ≡ expr_view expr) }
{
    let cond = match test_of(alloc, &expr)? {
        Some(test) => PlacedCond::Test(test.into_inner()),
        None => PlacedCond::Value(expr),
    };
    Boxed::new(alloc, cond)
}
