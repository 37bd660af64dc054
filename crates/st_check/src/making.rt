//! Making expressions of their operands.

ghost use Rattle.std.specs.Prelude.{◌≡◌, IfOk};
ghost use Rattle.st_ast.specs.Values.{of_bool};
ghost use Rattle.st_check.specs.PlacedTree as to;
ghost use Rattle.st_check.specs.PlacedView.{expr_view, pair_view, terms_view, factors_view, operands_view};
ghost use Rattle.st_check.specs.Placing as placing;

use crate::placed::{
    Join, Pairing, PlacedExpr, PlacedFactor, PlacedOperands, PlacedPair, PlacedProduct,
    PlacedSelection, PlacedSum, PlacedTerm, Relation, Single,
};
use cif_base::{Boxed, Items, Memory};
use st_ast::StOrder;
use std::alloc::Global;

/// The relation of an order, and whether it holds.
fn of_order(op: StOrder) -> (Relation, bool)
    ensures { to.is result.0 result.1 ≡ placing.of_order op }
{
    match op {
        StOrder::Lt => (Relation::Less, true),
        StOrder::Gt => (Relation::AtMost, false),
        StOrder::Le => (Relation::AtMost, true),
        StOrder::Ge => (Relation::Less, false),
    }
}

/// Two operands, in a box.
fn boxed(alloc: Global, first: PlacedExpr, second: PlacedExpr) -> Result<Boxed<PlacedPair>, Memory>
    ensures { IfOk result (λ p. pair_view p ≡ (expr_view first, expr_view second)) }
{
    Boxed::new(alloc, PlacedPair { first, second })
}

fn relate(
    alloc: Global,
    first: PlacedExpr,
    is: Relation,
    holds: bool,
    second: PlacedExpr,
) -> Result<PlacedExpr, Memory>
    ensures { IfOk result (λ e. expr_view e ≡ to.pair (expr_view first) (to.is is holds) (expr_view second)) }
{
    let operands = boxed(alloc, first, second)?;
    Ok(PlacedExpr::Related {
        is,
        holds,
        operands,
    })
}

fn extreme(
    alloc: Global,
    first: PlacedExpr,
    larger: bool,
    second: PlacedExpr,
) -> Result<PlacedExpr, Memory>
    ensures { IfOk result (λ e. expr_view e ≡ to.pair (expr_view first) (to.of_extreme larger) (expr_view second)) }
{
    let operands = boxed(alloc, first, second)?;
    Ok(PlacedExpr::Extreme { larger, operands })
}

/// A BOOL, as its number.
pub fn truth(is_true: bool) -> PlacedExpr
    ensures { expr_view result ≡ to.number (of_bool is_true) }
{
    PlacedExpr::Number(is_true as i64)
}

/// An operation on one operand.
pub fn single(alloc: Global, op: Single, operand: PlacedExpr) -> Result<PlacedExpr, Memory>
    ensures { IfOk result (λ e. expr_view e ≡ to.single op (expr_view operand)) }
{
    let operand = Boxed::new(alloc, operand)?;
    Ok(PlacedExpr::Single { op, operand })
}

/// Two operands with what stands between them.
pub fn pair(
    alloc: Global,
    first: PlacedExpr,
    pairing: Pairing,
    second: PlacedExpr,
) -> Result<PlacedExpr, Memory>
    ensures { IfOk result (λ e. expr_view e ≡ to.pair (expr_view first) (placing.of_pairing pairing) (expr_view second)) }
{
    match pairing {
        Pairing::Order(op) => {
            let (is, holds) = of_order(op);
            relate(alloc, first, is, holds, second)
        }
        Pairing::Equality(equal) => relate(alloc, first, Relation::Equal, equal, second),
        Pairing::Smaller => extreme(alloc, first, false, second),
        Pairing::Larger => extreme(alloc, first, true, second),
    }
}

/// A product of its first operand and the further ones.
pub fn product(
    alloc: Global,
    first: PlacedExpr,
    rest: Items<PlacedFactor>,
) -> Result<PlacedExpr, Memory>
    ensures { IfOk result (λ e. expr_view e ≡ to.chain (expr_view first) (factors_view rest)) }
{
    let operands = Boxed::new(alloc, PlacedProduct { first, rest })?;
    Ok(PlacedExpr::Product(operands))
}

/// A sum of its first operand and the further ones.
pub fn sum(alloc: Global, first: PlacedExpr, rest: Items<PlacedTerm>) -> Result<PlacedExpr, Memory>
    ensures { IfOk result (λ e. expr_view e ≡ to.chain (expr_view first) (terms_view rest)) }
{
    let operands = Boxed::new(alloc, PlacedSum { first, rest })?;
    Ok(PlacedExpr::Sum(operands))
}

/// The operands of one level, joined to a BOOL.
pub fn join_all(
    alloc: Global,
    join: Join,
    operands: Items<PlacedExpr>,
) -> Result<PlacedExpr, Memory>
    ensures { IfOk result (λ e. expr_view e
        ≡ to.chain (to.number (of_bool (to.joined_none join))) (operands_view join operands)) }
{
    let operands = Boxed::new(alloc, PlacedOperands { all: operands })?;
    Ok(PlacedExpr::Joined { join, operands })
}

/// A condition, the value where it is FALSE, and the one where it is TRUE.
pub fn select(
    alloc: Global,
    condition: PlacedExpr,
    otherwise: PlacedExpr,
    then: PlacedExpr,
) -> Result<PlacedExpr, Memory>
    ensures { IfOk result (λ e. expr_view e
        ≡ to.selected (expr_view condition) (expr_view otherwise) (expr_view then)) }
{
    let selection = PlacedSelection {
        condition,
        otherwise,
        then,
    };
    Ok(PlacedExpr::Select(Boxed::new(alloc, selection)?))
}
