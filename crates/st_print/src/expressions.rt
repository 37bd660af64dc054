//! How expressions are printed.

ghost use Rattle.std.specs.Prelude.{◌≡◌, ◌∷◌, List, codes, OnOk};
ghost use Rattle.st_ast.specs.View.{view_expr, view_exprs, view_factors, view_terms};
ghost use Rattle.st_print.specs.Layout.{Mark, word, sign, call, truth_marks, order_text, equal_text, plus_text, mul_mark, expr_marks, factors_marks, terms_marks, operands_marks, more_marks};
ghost use Rattle.st_print.specs.Printing.{so_far};

use crate::printer::Printer;
use cif_base::Memory;
use st_ast::{StExpr, StFactor, StMul, StOrder, StTerm};

impl Printer {
    /// Prints an expression (IEC 61131-3, "Expressions").
    #[cycle(expression)]
    pub fn expression(&mut self, expression: &StExpr) -> Result<(), Memory>
        ensures { OnOk result ((ms : List Mark) →
            so_far self.old (expr_marks (view_expr expression.now) ms) ≡ so_far self.new ms) }
    {
        match expression {
            StExpr::Bool(value) => self.truth(*value),
            StExpr::Int(value) => self.number(*value),
            StExpr::Named(name) => self.word(name.as_slice()),
            StExpr::Paren(inner) => self.group(inner.get()),
            StExpr::Neg(operand) => {
                self.dash()?;
                self.expression(operand.get())
            }
            StExpr::Not(operand) => self.after_word(b"NOT", operand.get()),
            StExpr::Product { first, rest } => {
                self.expression(first.get())?;
                self.factors(rest.as_slice())
            }
            StExpr::Sum { first, rest } => {
                self.expression(first.get())?;
                self.terms(rest.as_slice())
            }
            StExpr::Order { left, op, right } => {
                self.expression(left.get())?;
                self.after_sign(order_sign(*op), right.get())
            }
            StExpr::Equal { left, equal, right } => {
                self.expression(left.get())?;
                self.after_sign(equal_sign(*equal), right.get())
            }
            StExpr::And(operands) => self.operands(operands.as_slice(), b"AND"),
            StExpr::Xor(operands) => self.operands(operands.as_slice(), b"XOR"),
            StExpr::Or(operands) => self.operands(operands.as_slice(), b"OR"),
            StExpr::Abs(value) => {
                self.first_argument(b"ABS", value.get())?;
                self.sign(b")")
            }
            StExpr::Min(left, right) => {
                self.first_argument(b"MIN", left.get())?;
                self.last_argument(right.get())
            }
            StExpr::Max(left, right) => {
                self.first_argument(b"MAX", left.get())?;
                self.last_argument(right.get())
            }
            StExpr::Sel(condition, no, yes) => {
                self.first_argument(b"SEL", condition.get())?;
                self.after_sign(b",", no.get())?;
                self.last_argument(yes.get())
            }
        }
    }

    /// Prints an expression in parentheses.
    #[cycle(expression)]
    fn group(&mut self, inner: &StExpr) -> Result<(), Memory>
        ensures { OnOk result ((ms : List Mark) →
            so_far self.old (sign (codes "(") ∷ expr_marks (view_expr inner.now) (sign (codes ")") ∷ ms)) ≡ so_far self.new ms) }
    {
        self.sign(b"(")?;
        self.expression(inner)?;
        self.sign(b")")
    }

    /// Prints a word, as `NOT`, and the operand after it.
    #[cycle(expression)]
    fn after_word(&mut self, operator: &[u8], operand: &StExpr) -> Result<(), Memory>
        ensures { OnOk result ((ms : List Mark) →
            so_far self.old (word operator.now ∷ expr_marks (view_expr operand.now) ms) ≡ so_far self.new ms) }
    {
        self.word(operator)?;
        self.expression(operand)
    }

    /// Prints a sign, as `<` or a comma, and the operand after it.
    #[cycle(expression)]
    fn after_sign(&mut self, operator: &[u8], operand: &StExpr) -> Result<(), Memory>
        ensures { OnOk result ((ms : List Mark) →
            so_far self.old (sign operator.now ∷ expr_marks (view_expr operand.now) ms) ≡ so_far self.new ms) }
    {
        self.sign(operator)?;
        self.expression(operand)
    }

    /// Prints a function's name, the parenthesis that is joined to it, and the first argument.
    #[cycle(expression)]
    fn first_argument(&mut self, function: &[u8], argument: &StExpr) -> Result<(), Memory>
        ensures { OnOk result ((ms : List Mark) →
            so_far self.old (word function.now ∷ call ∷ expr_marks (view_expr argument.now) ms) ≡ so_far self.new ms) }
    {
        self.word(function)?;
        self.call()?;
        self.expression(argument)
    }

    /// Prints a comma, the last argument of a function, and the parenthesis that closes the call.
    #[cycle(expression)]
    fn last_argument(&mut self, argument: &StExpr) -> Result<(), Memory>
        ensures { OnOk result ((ms : List Mark) →
            so_far self.old (sign (codes ",") ∷ expr_marks (view_expr argument.now) (sign (codes ")") ∷ ms)) ≡ so_far self.new ms) }
    {
        self.sign(b",")?;
        self.expression(argument)?;
        self.sign(b")")
    }

    /// Prints the further operands of a product.
    #[cycle(expression)]
    fn factors(&mut self, factors: &[StFactor]) -> Result<(), Memory>
        ensures { OnOk result ((ms : List Mark) →
            so_far self.old (factors_marks (view_factors factors.now) ms) ≡ so_far self.new ms) }
    {
        for factor in factors {
            self.factor_operator(factor.op)?;
            self.expression(&factor.value)?;
        }
        Ok(())
    }

    /// Prints the further operands of a sum.
    #[cycle(expression)]
    fn terms(&mut self, terms: &[StTerm]) -> Result<(), Memory>
        ensures { OnOk result ((ms : List Mark) →
            so_far self.old (terms_marks (view_terms terms.now) ms) ≡ so_far self.new ms) }
    {
        for term in terms {
            self.sign(plus_sign(term.minus))?;
            self.expression(&term.value)?;
        }
        Ok(())
    }

    /// Prints operands with a word between them.
    #[cycle(expression)]
    fn operands(&mut self, operands: &[StExpr], operator: &[u8]) -> Result<(), Memory>
        ensures { OnOk result ((ms : List Mark) →
            so_far self.old (operands_marks operator.now (view_exprs operands.now) ms) ≡ so_far self.new ms) }
    {
        match operands {
            [] => Ok(()),
            [first, further @ ..] => {
                self.expression(first)?;
                for operand in further {
                    self.word(operator)?;
                    self.expression(operand)?;
                }
                Ok(())
            }
        }
    }

    /// Prints an operator of products.
    fn factor_operator(&mut self, operator: StMul) -> Result<(), Memory>
        ensures { OnOk result ((ms : List Mark) →
            so_far self.old (mul_mark operator ∷ ms) ≡ so_far self.new ms) }
    {
        match operator {
            StMul::Times => self.times(),
            StMul::Div => self.sign(b"/"),
            StMul::Mod => self.word(b"MOD"),
        }
    }

    /// Prints a truth value.
    pub fn truth(&mut self, value: bool) -> Result<(), Memory>
        ensures { OnOk result ((ms : List Mark) →
            so_far self.old (truth_marks value ms) ≡ so_far self.new ms) }
    {
        if value {
            self.word(b"TRUE")
        } else {
            self.word(b"FALSE")
        }
    }
}

fn order_sign(order: StOrder) -> &'static [u8]
    ensures { result.now ≡ order_text order }
{
    match order {
        StOrder::Lt => b"<",
        StOrder::Gt => b">",
        StOrder::Le => b"<=",
        StOrder::Ge => b">=",
    }
}

fn equal_sign(equal: bool) -> &'static [u8]
    ensures { result.now ≡ equal_text equal }
{
    if equal { b"=" } else { b"<>" }
}

fn plus_sign(minus: bool) -> &'static [u8]
    ensures { result.now ≡ plus_text minus }
{
    if minus { b"-" } else { b"+" }
}
