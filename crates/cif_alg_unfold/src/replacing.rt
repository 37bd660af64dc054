//! Expressions in which each algebraic variable is replaced.

ghost use Rattle.std.specs.Prelude.{◌≡◌, IfOk};
ghost use Rattle.cif_net_expr.specs.View.{view, view_form, view_exprs, view_terms, view_factors, view_branches};
ghost use Rattle.cif_net_model.specs.Exprs as exprs;
ghost use Rattle.cif_net_model.specs.Inline.{replaced, form_replaced, list_replaced, terms_replaced, factors_replaced, branches_replaced};
ghost use Rattle.cif_alg_unfold.specs.Tables.{by_table};

use crate::nodes::{branch, node, operand, placed, term};
use cif_base::{Boxed, Items, Memory};
use cif_net_expr::{NetBranch, NetExpr, NetFactor, NetForm, NetTerm};
use std::alloc::Global;

/// Replaces each algebraic variable by a copy of the expression with its number, which takes the place of the name.
#[derive(Clone, Copy)]
pub struct Replacing<'m> {
    pub alloc: Global,
    pub by: &'m [NetExpr],
}

impl<'m> Replacing<'m> {
    fn algebraic(&self, number: u32, at: u32) -> Result<Boxed<NetExpr>, Memory>
        ensures { IfOk result (λ x. view x ≡ exprs.placed at (by_table self.now.by.now number)) }
    {
        match self.by.get(number as usize) {
            Some(expr) => placed(self.alloc, expr.copy(self.alloc)?, at),
            None => node(self.alloc, NetForm::Int(0), at),
        }
    }

    #[cycle(expressions)]
    pub fn expr(&self, expr: &NetExpr) -> Result<Boxed<NetExpr>, Memory>
        ensures { IfOk result (λ x. view x ≡ replaced (by_table self.now.by.now) (view expr.now)) }
    {
        self.form(&expr.form, expr.at)
    }

    #[cycle(expressions)]
    fn form(&self, form: &NetForm, at: u32) -> Result<Boxed<NetExpr>, Memory>
        ensures { IfOk result (λ x. view x ≡ form_replaced (by_table self.now.by.now) at (view_form form.now)) }
    {
        match form {
            NetForm::Bool(b) => node(self.alloc, NetForm::Bool(*b), at),
            NetForm::Int(n) => node(self.alloc, NetForm::Int(*n), at),
            &NetForm::Loc { auto, place } => node(self.alloc, NetForm::Loc { auto, place }, at),
            NetForm::Var(number) => node(self.alloc, NetForm::Var(*number), at),
            NetForm::Input(number) => node(self.alloc, NetForm::Input(*number), at),
            NetForm::Alg(number) => self.algebraic(*number, at),
            NetForm::Received => node(self.alloc, NetForm::Received, at),
            NetForm::Neg(e) => node(self.alloc, NetForm::Neg(self.expr(e.get())?), at),
            NetForm::Plus(e) => node(self.alloc, NetForm::Plus(self.expr(e.get())?), at),
            NetForm::Not(e) => node(self.alloc, NetForm::Not(self.expr(e.get())?), at),
            NetForm::Abs(e) => node(self.alloc, NetForm::Abs(self.expr(e.get())?), at),
            NetForm::Min(a, b) => {
                let (a, b) = (self.expr(a.get())?, self.expr(b.get())?);
                node(self.alloc, NetForm::Min(a, b), at)
            }
            NetForm::Max(a, b) => {
                let (a, b) = (self.expr(a.get())?, self.expr(b.get())?);
                node(self.alloc, NetForm::Max(a, b), at)
            }
            NetForm::Implies(a, b) => {
                let (a, b) = (self.expr(a.get())?, self.expr(b.get())?);
                node(self.alloc, NetForm::Implies(a, b), at)
            }
            NetForm::Iff(a, b) => {
                let (a, b) = (self.expr(a.get())?, self.expr(b.get())?);
                node(self.alloc, NetForm::Iff(a, b), at)
            }
            NetForm::Compare { left, op, right } => {
                let (left, right) = (self.expr(left.get())?, self.expr(right.get())?);
                let op = *op;
                node(self.alloc, NetForm::Compare { left, op, right }, at)
            }
            NetForm::Sum { first, rest } => {
                let (first, rest) = (self.expr(first.get())?, self.terms(rest.as_slice())?);
                node(self.alloc, NetForm::Sum { first, rest }, at)
            }
            NetForm::Product { first, rest } => {
                let (first, rest) = (self.expr(first.get())?, self.factors(rest.as_slice())?);
                node(self.alloc, NetForm::Product { first, rest }, at)
            }
            NetForm::And(parts) => node(
                self.alloc,
                NetForm::And(self.exprs(parts.as_slice())?),
                at,
            ),
            NetForm::Or(parts) => node(self.alloc, NetForm::Or(self.exprs(parts.as_slice())?), at),
            NetForm::If { branches, other } => {
                let branches = self.branches(branches.as_slice())?;
                let other = self.expr(other.get())?;
                node(self.alloc, NetForm::If { branches, other }, at)
            }
        }
    }

    #[cycle(expressions)]
    pub(crate) fn exprs(&self, all: &[NetExpr]) -> Result<Items<NetExpr>, Memory>
        ensures { IfOk result (λ x. view_exprs x ≡ list_replaced (by_table self.now.by.now) (view_exprs all.now)) }
    {
        let mut made = Items::new(self.alloc);
        for expr in all {
            made.push(self.expr(expr)?.into_inner())?;
        }
        Ok(made)
    }

    #[cycle(expressions)]
    fn terms(&self, all: &[NetTerm]) -> Result<Items<NetTerm>, Memory>
        ensures { IfOk result (λ x. view_terms x ≡ terms_replaced (by_table self.now.by.now) (view_terms all.now)) }
    {
        let mut made = Items::new(self.alloc);
        for one in all {
            let value = self.expr(&one.value)?;
            made.push(term(one.minus, value))?;
        }
        Ok(made)
    }

    #[cycle(expressions)]
    fn factors(&self, all: &[NetFactor]) -> Result<Items<NetFactor>, Memory>
        ensures { IfOk result (λ x. view_factors x ≡ factors_replaced (by_table self.now.by.now) (view_factors all.now)) }
    {
        let mut made = Items::new(self.alloc);
        for one in all {
            let value = self.expr(&one.value)?;
            made.push(operand(one.op, value))?;
        }
        Ok(made)
    }

    #[cycle(expressions)]
    fn branches(&self, all: &[NetBranch]) -> Result<Items<NetBranch>, Memory>
        ensures { IfOk result (λ x. view_branches x ≡ branches_replaced (by_table self.now.by.now) (view_branches all.now)) }
    {
        let mut made = Items::new(self.alloc);
        for one in all {
            let cond = self.expr(&one.cond)?;
            let value = self.expr(&one.value)?;
            made.push(branch(cond, value))?;
        }
        Ok(made)
    }
}
