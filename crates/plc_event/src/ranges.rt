//! The tests that new values, and what is sent, are in their ranges.

ghost use Rattle.std.specs.Prelude.{◌≡◌, slice_get, IfOk};
ghost use Rattle.cif_system.specs.System.{Range};
ghost use Rattle.cif_net.specs.View.{net_tree};
ghost use Rattle.st_ast.specs.Tree.{assign, order, named, no_stms, stms};
ghost use Rattle.st_ast.specs.View.{view_expr, view_stmt, view_stmts};
ghost use Rattle.st_ast.specs.declared.tree.StOrder.TheVariants as cmp;
ghost use Rattle.plc_expr.specs.Texts.{number_text};
ghost use Rattle.plc_event_model.specs.Sends as s;
ghost use Rattle.plc_event_model.specs.Writes as w;
ghost use Rattle.plc_event.specs.Writers.{new_names_of};

use crate::selecting::tested;
use crate::writing::NewTexts;
use cif_base::{Boxed, Items, Memory, Text, Ty};
use cif_net::Net;
use plc_expr::number_of;
use st_ast::{StExpr, StOrder, Stmt};
use std::alloc::Global;

/// The test that the least value is at most the value with this name.
fn from(alloc: Global, lo: i64, name: &Text) -> Result<Boxed<StExpr>, Memory>
    ensures { IfOk result (λ e. view_expr e ≡ order (number_text lo) cmp.Le (named name.now)) }
{
    let left = number_of(alloc, lo)?;
    let right = Boxed::new(alloc, StExpr::Named(name.copy(alloc)?))?;
    let op = StOrder::Le;
    Boxed::new(alloc, StExpr::Order { left, op, right })
}

/// The test that the value with this name is at most the greatest value.
fn to(alloc: Global, name: &Text, hi: i64) -> Result<Boxed<StExpr>, Memory>
    ensures { IfOk result (λ e. view_expr e ≡ order (named name.now) cmp.Le (number_text hi)) }
{
    let left = Boxed::new(alloc, StExpr::Named(name.copy(alloc)?))?;
    let right = number_of(alloc, hi)?;
    let op = StOrder::Le;
    Boxed::new(alloc, StExpr::Order { left, op, right })
}

/// The test that the mark is set, and the value with this name lies between these values.
fn stays_in(
    alloc: Global,
    mark: &Text,
    name: &Text,
    lo: i64,
    hi: i64,
) -> Result<Boxed<StExpr>, Memory>
    ensures { IfOk result (λ e. view_expr e ≡ w.stays_in mark.now name.now (record { lo = lo; hi = hi })) }
{
    let mut parts = Items::only(alloc, StExpr::Named(mark.copy(alloc)?))?;
    parts.push(from(alloc, lo, name)?.into_inner())?;
    parts.push(to(alloc, name, hi)?.into_inner())?;
    Boxed::new(alloc, StExpr::And(parts))
}

/// The test that the value with this name lies between these values.
fn lies_in(alloc: Global, name: &Text, lo: i64, hi: i64) -> Result<Boxed<StExpr>, Memory>
    ensures { IfOk result (λ e. view_expr e ≡ s.lies_in name.now (record { lo = lo; hi = hi })) }
{
    let mut parts = Items::only(alloc, from(alloc, lo, name)?.into_inner())?;
    parts.push(to(alloc, name, hi)?.into_inner())?;
    Boxed::new(alloc, StExpr::And(parts))
}

/// The statements where the sent value with this name is in the range of its channel.
pub(crate) fn where_fits(
    alloc: Global,
    name: &Text,
    ty: Ty,
    body: Items<Stmt>,
) -> Result<Items<Stmt>, Memory>
    ensures { IfOk result (λ ss. view_stmts ss ≡ s.where_fits name.now ty (view_stmts body)) }
{
    match ty {
        Ty::Int { lo, hi } => {
            let test = lies_in(alloc, name, lo, hi)?;
            Items::only(alloc, tested(alloc, test, body)?.into_inner())
        }
        Ty::Bool | Ty::Enum { size: _ } => Ok(body),
    }
}

/// The mark stays set only if the new value of the variable lies between these values.
fn keeping(alloc: Global, new: &NewTexts, var: u32, lo: i64, hi: i64) -> Result<Boxed<Stmt>, Memory>
    ensures { IfOk result (λ s. view_stmt s ≡ assign (new_names_of new.now).in_range
        (w.stays_in (new_names_of new.now).in_range ((new_names_of new.now).next var) (record { lo = lo; hi = hi }))) }
{
    let name = new.next_name(alloc, var)?;
    let target = new.in_range.copy(alloc)?;
    let value = stays_in(alloc, &new.in_range, &name, lo, hi)?.into_inner();
    Boxed::new(alloc, Stmt::Assign { target, value })
}

/// The test of the new value of a variable, and no statement where it is not tested.
pub(crate) fn range_test(
    alloc: Global,
    net: &Net,
    new: &NewTexts,
    var: u32,
) -> Result<Items<Stmt>, Memory>
    ensures { IfOk result (λ ss. view_stmts ss ≡ w.range_test (new_names_of new.now) var (slice_get (net_tree net.now).vars var)) }
{
    let Some(found) = net.vars.get(var as usize) else {
        return Ok(Items::new(alloc));
    };
    match found.ty {
        Ty::Int { lo, hi } => Items::only(alloc, keeping(alloc, new, var, lo, hi)?.into_inner()),
        Ty::Bool | Ty::Enum { size: _ } => Ok(Items::new(alloc)),
    }
}
