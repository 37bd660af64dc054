//! The negation of an expression.

ghost use Rattle.std.specs.Prelude.{◌≡◌, IfOk};
ghost use Rattle.st_ast.specs.View.{view_expr};
ghost use Rattle.plc_expr.specs.Texts.{negated};
ghost use Rattle.plc_expr_walk.specs.Leaves.{leaf_of};

use cif_base::{Boxed, Memory};
use st_ast::StExpr;
use std::alloc::Global;

/// A literal of truth, a name, or another expression.
#[derive(Clone, Copy, Debug, PartialEq, Eq)]
pub enum Leaf {
    Truth(bool),
    Name,
    Other,
}

fn leaf_in(e: &StExpr) -> Leaf
    ensures { result ≡ leaf_of (view_expr e.now) }
{
    match e {
        StExpr::Bool(b) => Leaf::Truth(*b),
        StExpr::Named(_) => Leaf::Name,
        _ => Leaf::Other,
    }
}

/// The negation: of a literal the other one, and else with parentheses round what is no leaf.
#[tactic(auto, using(crate::proofs::Opposite::negated_by))]
pub fn negation_of(alloc: Global, e: Boxed<StExpr>) -> Result<Boxed<StExpr>, Memory>
    ensures { IfOk result (λ x. view_expr x ≡ negated (view_expr e)) }
{
    match leaf_in(e.get()) {
        Leaf::Truth(b) => Boxed::new(alloc, StExpr::Bool(!b)),
        Leaf::Name => Boxed::new(alloc, StExpr::Not(e)),
        Leaf::Other => {
            let inner = Boxed::new(alloc, StExpr::Paren(e))?;
            Boxed::new(alloc, StExpr::Not(inner))
        }
    }
}
