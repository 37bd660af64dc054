//! Expressions by what stands for the names in them. The reader of names is a parameter, so that the forms are proved by themselves.

ghost use Rattle.std.specs.Prelude.{◌≡◌, IfOk};
ghost use Rattle.cif_ast.specs.View.{view, view_form, view_exprs, view_terms, view_factors, view_branches};
ghost use Rattle.cif_net_model.specs.Exprs.{placed};
ghost use Rattle.cif_net_expr.specs.View as net;
ghost use Rattle.cif_inst_model.specs.Translation.{net_with, net_form, net_exprs_of, net_terms_of, net_factors_of, net_branches_of, conjunction};
ghost use Rattle.cif_inst_names.specs.ReadsNames.{ReadsNames, name_in};

use crate::looking::Looking;
use crate::nodes::{branch, first_place, node, operand, placed, term};
use crate::operators::{comparison, factor};
use cif_ast::{Branch, Expr, Factor, Form, Name, Term};
use cif_base::{Boxed, Items, Memory};
use cif_net_expr::{NetBranch, NetExpr, NetFactor, NetForm, NetTerm};
use std::alloc::Global;

/// Makes expressions of the net from those of a component.
#[derive(Clone, Copy)]
pub struct Maker<'m, F> {
    pub alloc: Global,
    pub looking: &'m Looking<'m, 'm>,
    pub component: u32,
    /// Through how many arguments in one another names may still be followed.
    pub left: u8,
    pub names: F,
}

impl<
    'm,
    F: Fn(Global, &Looking<'_, '_>, u32, &Name, u32, u8) -> Result<Boxed<NetExpr>, Memory>,
> Maker<'m, F> {
    fn named(&self, name: &Name, at: u32) -> Result<Boxed<NetExpr>, Memory>
        requires { ReadsNames self.now.looking self.now.component self.now.left (F.pre self.now.names) (F.post self.now.names) }
        ensures { IfOk result (λ x. net.view x ≡ name_in self.now.looking.now self.now.component name.now at) }
    {
        (self.names)(
            self.alloc,
            self.looking,
            self.component,
            name,
            at,
            self.left,
        )
    }

    #[cycle(expressions)]
    pub fn expr(&self, expr: &Expr) -> Result<Boxed<NetExpr>, Memory>
        requires { ReadsNames self.now.looking self.now.component self.now.left (F.pre self.now.names) (F.post self.now.names) }
        ensures { IfOk result (λ x. net.view x ≡ net_with (name_in self.now.looking.now self.now.component) (view expr.now)) }
    {
        self.form(&expr.form, expr.at)
    }

    #[cycle(expressions)]
    fn form(&self, form: &Form, at: u32) -> Result<Boxed<NetExpr>, Memory>
        requires { ReadsNames self.now.looking self.now.component self.now.left (F.pre self.now.names) (F.post self.now.names) }
        ensures { IfOk result (λ x. net.view x ≡ net_form (name_in self.now.looking.now self.now.component) at (view_form form.now)) }
    {
        match form {
            Form::Bool(b) => node(self.alloc, NetForm::Bool(*b), at),
            Form::Int(n) => node(self.alloc, NetForm::Int(*n), at),
            Form::Named(name) => self.named(name, at),
            Form::Received => node(self.alloc, NetForm::Received, at),
            Form::Paren(e) => placed(self.alloc, self.expr(e.get())?, at),
            Form::Neg(e) => node(self.alloc, NetForm::Neg(self.expr(e.get())?), at),
            Form::Plus(e) => node(self.alloc, NetForm::Plus(self.expr(e.get())?), at),
            Form::Not(e) => node(self.alloc, NetForm::Not(self.expr(e.get())?), at),
            Form::Abs(e) => node(self.alloc, NetForm::Abs(self.expr(e.get())?), at),
            Form::Min(a, b) => {
                let (a, b) = (self.expr(a.get())?, self.expr(b.get())?);
                node(self.alloc, NetForm::Min(a, b), at)
            }
            Form::Max(a, b) => {
                let (a, b) = (self.expr(a.get())?, self.expr(b.get())?);
                node(self.alloc, NetForm::Max(a, b), at)
            }
            Form::Implies(a, b) => {
                let (a, b) = (self.expr(a.get())?, self.expr(b.get())?);
                node(self.alloc, NetForm::Implies(a, b), at)
            }
            Form::Iff(a, b) => {
                let (a, b) = (self.expr(a.get())?, self.expr(b.get())?);
                node(self.alloc, NetForm::Iff(a, b), at)
            }
            Form::Compare { left, op, right } => {
                let (left, right) = (self.expr(left.get())?, self.expr(right.get())?);
                let op = comparison(*op);
                node(self.alloc, NetForm::Compare { left, op, right }, at)
            }
            Form::Sum { first, rest } => {
                let (first, rest) = (self.expr(first.get())?, self.terms(rest.as_slice())?);
                node(self.alloc, NetForm::Sum { first, rest }, at)
            }
            Form::Product { first, rest } => {
                let (first, rest) = (self.expr(first.get())?, self.factors(rest.as_slice())?);
                node(self.alloc, NetForm::Product { first, rest }, at)
            }
            Form::And(parts) => node(self.alloc, NetForm::And(self.exprs(parts.as_slice())?), at),
            Form::Or(parts) => node(self.alloc, NetForm::Or(self.exprs(parts.as_slice())?), at),
            Form::If { branches, other } => {
                let branches = self.branches(branches.as_slice())?;
                let other = self.expr(other.get())?;
                node(self.alloc, NetForm::If { branches, other }, at)
            }
        }
    }

    #[cycle(expressions)]
    fn exprs(&self, all: &[Expr]) -> Result<Items<NetExpr>, Memory>
        requires { ReadsNames self.now.looking self.now.component self.now.left (F.pre self.now.names) (F.post self.now.names) }
        ensures { IfOk result (λ x. net.view_exprs x ≡ net_exprs_of (name_in self.now.looking.now self.now.component) (view_exprs all.now)) }
    {
        let mut made = Items::new(self.alloc);
        for expr in all {
            made.push(self.expr(expr)?.into_inner())?;
        }
        Ok(made)
    }

    #[cycle(expressions)]
    fn terms(&self, all: &[Term]) -> Result<Items<NetTerm>, Memory>
        requires { ReadsNames self.now.looking self.now.component self.now.left (F.pre self.now.names) (F.post self.now.names) }
        ensures { IfOk result (λ x. net.view_terms x ≡ net_terms_of (name_in self.now.looking.now self.now.component) (view_terms all.now)) }
    {
        let mut made = Items::new(self.alloc);
        for one in all {
            let value = self.expr(&one.value)?;
            made.push(term(one.minus, value))?;
        }
        Ok(made)
    }

    #[cycle(expressions)]
    fn factors(&self, all: &[Factor]) -> Result<Items<NetFactor>, Memory>
        requires { ReadsNames self.now.looking self.now.component self.now.left (F.pre self.now.names) (F.post self.now.names) }
        ensures { IfOk result (λ x. net.view_factors x ≡ net_factors_of (name_in self.now.looking.now self.now.component) (view_factors all.now)) }
    {
        let mut made = Items::new(self.alloc);
        for one in all {
            let value = self.expr(&one.value)?;
            made.push(operand(factor(one.op), value))?;
        }
        Ok(made)
    }

    #[cycle(expressions)]
    fn branches(&self, all: &[Branch]) -> Result<Items<NetBranch>, Memory>
        requires { ReadsNames self.now.looking self.now.component self.now.left (F.pre self.now.names) (F.post self.now.names) }
        ensures { IfOk result (λ x. net.view_branches x ≡ net_branches_of (name_in self.now.looking.now self.now.component) (view_branches all.now)) }
    {
        let mut made = Items::new(self.alloc);
        for one in all {
            let cond = self.condition(one.conds.as_slice())?;
            let value = self.expr(&one.value)?;
            made.push(branch(cond, value))?;
        }
        Ok(made)
    }

    /// Conditions as one, with the place of the first.
    #[cycle(expressions)]
    pub fn condition(&self, conds: &[Expr]) -> Result<Boxed<NetExpr>, Memory>
        requires { ReadsNames self.now.looking self.now.component self.now.left (F.pre self.now.names) (F.post self.now.names) }
        ensures { IfOk result (λ x. net.view x ≡ conjunction (net_exprs_of (name_in self.now.looking.now self.now.component) (view_exprs conds.now))) }
    {
        match conds {
            [] => node(self.alloc, NetForm::Bool(true), 0),
            [cond] => self.expr(cond),
            [_, ..] => {
                let parts = self.exprs(conds)?;
                let at = first_place(parts.as_slice());
                node(self.alloc, NetForm::And(parts), at)
            }
        }
    }
}
