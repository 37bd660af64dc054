//! Expressions of the net with their places.

ghost use Rattle.std.specs.Prelude.{◌≡◌, IfOk};
ghost use Rattle.cif_net_expr.specs.Tree.{net_expr};
ghost use Rattle.cif_net_expr.specs.View as net;
ghost use Rattle.cif_net_model.specs.Exprs as exprs;
ghost use Rattle.cif_inst_names.specs.Places.{first_at};

use cif_base::{Boxed, Memory};
use cif_net_expr::{MulOp, NetBranch, NetExpr, NetFactor, NetForm, NetTerm};
use std::alloc::Global;

pub fn node(alloc: Global, form: NetForm, at: u32) -> Result<Boxed<NetExpr>, Memory>
    ensures { IfOk result (λ x. net.view x ≡ net_expr (net.view_form form) at) }
{
    Boxed::new(alloc, NetExpr { form, at })
}

/// An expression at another place.
pub fn placed(alloc: Global, expr: Boxed<NetExpr>, at: u32) -> Result<Boxed<NetExpr>, Memory>
    ensures { IfOk result (λ x. net.view x ≡ exprs.placed at (net.view expr)) }
{
    let NetExpr { form, at: _ } = expr.into_inner();
    node(alloc, form, at)
}

/// The place of the first expression.
pub fn first_place(all: &[NetExpr]) -> u32
    ensures { result ≡ first_at (net.view_exprs all.now) }
{
    match all {
        [] => 0,
        [first, ..] => first.at,
    }
}

pub fn term(minus: bool, value: Boxed<NetExpr>) -> NetTerm
    ensures { net.view_term result ≡ (minus, net.view value) }
{
    NetTerm {
        minus,
        value: value.into_inner(),
    }
}

pub fn operand(op: MulOp, value: Boxed<NetExpr>) -> NetFactor
    ensures { net.view_factor result ≡ (net.view_mul op, net.view value) }
{
    NetFactor {
        op,
        value: value.into_inner(),
    }
}

pub fn branch(cond: Boxed<NetExpr>, value: Boxed<NetExpr>) -> NetBranch
    ensures { net.view_branch result ≡ (net.view cond, net.view value) }
{
    NetBranch {
        cond: cond.into_inner(),
        value: value.into_inner(),
    }
}
