//! Reading expressions. Each operand is read before it is asked for its kind, so each is read once.

ghost use Rattle.std.specs.Prelude.{◌≡◌, IfOk, None, option_map, unwrap_or};
ghost use Rattle.cif_ast.specs.View.{view, view_form, view_exprs, view_terms, view_factors, view_branches};
ghost use Rattle.cif_source.specs.Kinds.{kind_of, shape_kind, bool_kind, int_kind, same_kind};
ghost use Rattle.cif_types_kinds.specs.Tables.{kind_for};
ghost use Rattle.cif_types_kinds.specs.Readings.{IsReading, component_in, lists_in, received_in};
ghost use Rattle.cif_types_kinds.specs.Faults as faults;

use crate::error::KindErr;
use crate::kind::Kind;
use crate::reading::Reading;
use cif_ast::{Branch, CmpOp, Expr, Factor, Form, Term};
use std::alloc::Global;

impl<'a> Reading<'a> {
    /// The kind that is asked for, where the expression that begins there has it.
    fn expected(&self, kind: Kind, asks: Kind, at: u32) -> Result<Kind, KindErr>
        requires { IsReading self.now }
        ensures kind { IfOk result (λ k. k ≡ asks) }
        ensures told { faults.Tells result
            (faults.unless (same_kind (kind_for (lists_in self.now) kind) (kind_for (lists_in self.now) asks)) at) }
    {
        if self.table.is_same(kind, asks) {
            Ok(asks)
        } else {
            Err(KindErr::Mismatch { at })
        }
    }

    /// The kind of an expression whose operands have the kinds that are asked of them.
    #[cycle(reading)]
    pub(crate) fn read(&self, alloc: Global, expr: &Expr) -> Result<Kind, KindErr>
        requires { IsReading self.now }
        ensures kind { IfOk result (λ k. kind_for (lists_in self.now) k
            ≡ kind_of (component_in self.now) (received_in self.now) (view expr.now)) }
        ensures told { faults.Tells result
            (faults.fault (component_in self.now) (received_in self.now) (view expr.now)) }
    {
        self.read_form(alloc, expr.at, &expr.form)
    }

    #[cycle(reading)]
    fn read_form(&self, alloc: Global, at: u32, form: &Form) -> Result<Kind, KindErr>
        requires { IsReading self.now }
        ensures kind { IfOk result (λ k. kind_for (lists_in self.now) k
            ≡ shape_kind (component_in self.now) (received_in self.now) (view_form form.now)) }
        ensures told { faults.Tells result
            (faults.shape_fault (component_in self.now) (received_in self.now) at (view_form form.now)) }
    {
        match form {
            Form::Bool(_) => Ok(Kind::Bool),
            Form::Int(_) => Ok(Kind::Int),
            Form::Named(name) => Ok(self.kind_of_name(alloc, name)?),
            Form::Received => self.expected(self.received, self.received, at),
            Form::Paren(e) => self.read(alloc, e.get()),
            Form::Neg(e) | Form::Plus(e) | Form::Abs(e) => self.ask(alloc, Kind::Int, e.get()),
            Form::Not(e) => self.ask(alloc, Kind::Bool, e.get()),
            Form::Min(a, b) | Form::Max(a, b) => {
                self.ask(alloc, Kind::Int, a.get())?;
                self.ask(alloc, Kind::Int, b.get())
            }
            Form::Sum { first, rest } => {
                self.ask(alloc, Kind::Int, first.get())?;
                self.ask_terms(alloc, rest.as_slice())
            }
            Form::Product { first, rest } => {
                self.ask(alloc, Kind::Int, first.get())?;
                self.ask_factors(alloc, rest.as_slice())
            }
            Form::Compare { left, op, right } => {
                let asks = self.read_left(alloc, *op, left.get())?;
                self.ask(alloc, asks, right.get())?;
                Ok(Kind::Bool)
            }
            Form::And(parts) | Form::Or(parts) => self.ask_all(alloc, parts.as_slice()),
            Form::Implies(a, b) | Form::Iff(a, b) => {
                self.ask(alloc, Kind::Bool, a.get())?;
                self.ask(alloc, Kind::Bool, b.get())
            }
            Form::If { branches, other } => {
                let first = self.read_branches(alloc, branches.as_slice())?;
                self.ask_like(alloc, first, other.get())
            }
        }
    }

    /// Asks an expression for a kind.
    #[cycle(reading)]
    pub(crate) fn ask(&self, alloc: Global, asks: Kind, expr: &Expr) -> Result<Kind, KindErr>
        requires { IsReading self.now }
        ensures kind { IfOk result (λ k. k ≡ asks) }
        ensures told { faults.Tells result
            (faults.then_asked (component_in self.now) (received_in self.now) (kind_for (lists_in self.now) asks) (view expr.now)
            (faults.fault (component_in self.now) (received_in self.now) (view expr.now))) }
    {
        let kind = self.read(alloc, expr)?;
        self.expected(kind, asks, expr.at)
    }

    /// Asks a branch of an `if` for the kind of the first one, which is that of this one where there are none before it.
    #[cycle(reading)]
    fn ask_like(&self, alloc: Global, first: Option<Kind>, expr: &Expr) -> Result<Kind, KindErr>
        requires { IsReading self.now }
        ensures kind { IfOk result (λ k. kind_for (lists_in self.now) k
            ≡ unwrap_or (option_map (kind_for (lists_in self.now)) first) (kind_of (component_in self.now) (received_in self.now) (view expr.now))) }
        ensures told { faults.Tells result
            (faults.then_asked (component_in self.now) (received_in self.now)
            (unwrap_or (option_map (kind_for (lists_in self.now)) first) (kind_of (component_in self.now) (received_in self.now) (view expr.now)))
            (view expr.now) (faults.fault (component_in self.now) (received_in self.now) (view expr.now))) }
    {
        let kind = self.read(alloc, expr)?;
        match first {
            Some(asks) => self.expected(kind, asks, expr.at),
            None => self.expected(kind, kind, expr.at),
        }
    }

    /// Reads the left operand of a comparison: the kind that the right one is asked for.
    #[cycle(reading)]
    fn read_left(&self, alloc: Global, op: CmpOp, left: &Expr) -> Result<Kind, KindErr>
        requires { IsReading self.now }
        ensures kind { IfOk result (λ k. kind_for (lists_in self.now) k
            ≡ faults.right_kind (component_in self.now) (received_in self.now) op (view left.now)) }
        ensures told { faults.Tells result
            (faults.left_fault (component_in self.now) (received_in self.now) op (view left.now)
            (faults.fault (component_in self.now) (received_in self.now) (view left.now))) }
    {
        match op {
            CmpOp::Eq | CmpOp::Ne => self.read(alloc, left),
            CmpOp::Lt | CmpOp::Le | CmpOp::Gt | CmpOp::Ge => self.ask(alloc, Kind::Int, left),
        }
    }

    /// Asks expressions for truth values.
    #[cycle(reading)]
    pub(crate) fn ask_all(&self, alloc: Global, all: &[Expr]) -> Result<Kind, KindErr>
        requires { IsReading self.now }
        ensures kind { IfOk result (λ k. kind_for (lists_in self.now) k ≡ bool_kind) }
        ensures told { faults.Tells result
            (faults.truth_fault (component_in self.now) (received_in self.now) (view_exprs all.now)) }
    {
        for expr in all {
            self.ask(alloc, Kind::Bool, expr)?;
        }
        Ok(Kind::Bool)
    }

    #[cycle(reading)]
    fn ask_terms(&self, alloc: Global, all: &[Term]) -> Result<Kind, KindErr>
        requires { IsReading self.now }
        ensures kind { IfOk result (λ k. kind_for (lists_in self.now) k ≡ int_kind) }
        ensures told { faults.Tells result
            (faults.term_fault (component_in self.now) (received_in self.now) (view_terms all.now)) }
    {
        for term in all {
            self.ask(alloc, Kind::Int, &term.value)?;
        }
        Ok(Kind::Int)
    }

    #[cycle(reading)]
    fn ask_factors(&self, alloc: Global, all: &[Factor]) -> Result<Kind, KindErr>
        requires { IsReading self.now }
        ensures kind { IfOk result (λ k. kind_for (lists_in self.now) k ≡ int_kind) }
        ensures told { faults.Tells result
            (faults.factor_fault (component_in self.now) (received_in self.now) (view_factors all.now)) }
    {
        for factor in all {
            self.ask(alloc, Kind::Int, &factor.value)?;
        }
        Ok(Kind::Int)
    }

    /// Reads the branches of an `if` but the last: the kind of the first, where there is one.
    #[cycle(reading)]
    fn read_branches(&self, alloc: Global, all: &[Branch]) -> Result<Option<Kind>, KindErr>
        requires { IsReading self.now }
        ensures kind { IfOk result (λ k. option_map (kind_for (lists_in self.now)) k
            ≡ faults.first_of (component_in self.now) (received_in self.now) None (view_branches all.now)) }
        ensures told { faults.Tells result
            (faults.branch_fault (component_in self.now) (received_in self.now) None (view_branches all.now)) }
    {
        let mut first = None;
        for branch in all {
            self.ask_all(alloc, branch.conds.as_slice())?;
            first = Some(self.ask_like(alloc, first, &branch.value)?);
        }
        Ok(first)
    }
}
