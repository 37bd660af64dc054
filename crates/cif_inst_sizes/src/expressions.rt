//! What expressions weigh, form by form.

ghost use Rattle.std.specs.Prelude.{◌≡◌, IfOk};
ghost use Rattle.cif_ast.specs.View.{view, view_form, view_exprs, view_terms, view_factors, view_branches};
ghost use Rattle.cif_inst_sizes.specs.Counted as counted;
ghost use Rattle.cif_inst_sizes.specs.Weights.{Knows, names_by};

use crate::measuring::Measurer;
use cif_alg_measure::Measure;
use cif_ast::{Branch, Expr, Factor, Form, Term};
use cif_base::Memory;

impl<'a, 'b, 'c> Measurer<'a, 'b, 'c> {
    /// The measure that an expression of the component has in the net.
    #[cycle(expressions)]
    pub fn expr(&self, expr: &Expr) -> Result<Measure, Memory>
        requires { Knows self.now }
        ensures { IfOk result (λ m. m ≡ counted.tree_counted (names_by self.now) (view expr.now)) }
    {
        self.form(&expr.form)
    }

    #[cycle(expressions)]
    fn form(&self, form: &Form) -> Result<Measure, Memory>
        requires { Knows self.now }
        ensures { IfOk result (λ m. m ≡ counted.shape_counted (names_by self.now) (view_form form.now)) }
    {
        match form {
            Form::Bool(_) | Form::Int(_) | Form::Received => Ok(Measure::one()),
            Form::Named(name) => self.name(name),
            Form::Paren(e) => self.expr(e.get()),
            Form::Neg(e) | Form::Plus(e) | Form::Not(e) | Form::Abs(e) => {
                Ok(self.expr(e.get())?.above())
            }
            Form::Min(a, b) | Form::Max(a, b) | Form::Implies(a, b) | Form::Iff(a, b) => {
                Ok(self.expr(a.get())?.beside(self.expr(b.get())?).above())
            }
            Form::Compare { left, op: _, right } => {
                Ok(
                    self.expr(left.get())?
                        .beside(self.expr(right.get())?)
                        .above(),
                )
            }
            Form::Sum { first, rest } => {
                let first = self.expr(first.get())?;
                Ok(self.terms(rest.as_slice(), first)?.above())
            }
            Form::Product { first, rest } => {
                let first = self.expr(first.get())?;
                Ok(self.factors(rest.as_slice(), first)?.above())
            }
            Form::And(parts) | Form::Or(parts) => Ok(self.parts(parts.as_slice())?.above()),
            Form::If { branches, other } => {
                let other = self.expr(other.get())?;
                Ok(self.branches(branches.as_slice(), other)?.above())
            }
        }
    }

    #[cycle(expressions)]
    fn parts(&self, all: &[Expr]) -> Result<Measure, Memory>
        requires { Knows self.now }
        ensures { IfOk result (λ m. m ≡ counted.trees_counted (names_by self.now) counted.none (view_exprs all.now)) }
    {
        let mut found = Measure::none();
        for expr in all {
            found = found.beside(self.expr(expr)?);
        }
        Ok(found)
    }

    #[cycle(expressions)]
    fn terms(&self, all: &[Term], first: Measure) -> Result<Measure, Memory>
        requires { Knows self.now }
        ensures { IfOk result (λ m. m ≡ counted.terms_counted (names_by self.now) first (view_terms all.now)) }
    {
        let mut found = first;
        for term in all {
            found = found.beside(self.expr(&term.value)?);
        }
        Ok(found)
    }

    #[cycle(expressions)]
    fn factors(&self, all: &[Factor], first: Measure) -> Result<Measure, Memory>
        requires { Knows self.now }
        ensures { IfOk result (λ m. m ≡ counted.factors_counted (names_by self.now) first (view_factors all.now)) }
    {
        let mut found = first;
        for factor in all {
            found = found.beside(self.expr(&factor.value)?);
        }
        Ok(found)
    }

    #[cycle(expressions)]
    fn branches(&self, all: &[Branch], other: Measure) -> Result<Measure, Memory>
        requires { Knows self.now }
        ensures { IfOk result (λ m. m ≡ counted.branches_counted (names_by self.now) other (view_branches all.now)) }
    {
        let mut found = other;
        for branch in all {
            let condition = self.conditions(branch.conds.as_slice())?;
            found = found.beside(condition).beside(self.expr(&branch.value)?);
        }
        Ok(found)
    }

    /// Conditions all of which must hold.
    #[cycle(expressions)]
    pub fn conditions(&self, all: &[Expr]) -> Result<Measure, Memory>
        requires { Knows self.now }
        ensures { IfOk result (λ m. m ≡ counted.conditions_counted (names_by self.now) (view_exprs all.now)) }
    {
        match all {
            [] => Ok(Measure::one()),
            [only] => self.expr(only),
            _ => Ok(self.parts(all)?.above()),
        }
    }
}
