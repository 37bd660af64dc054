//! Operands: literals, names, parentheses, functions, negations and complements.

ghost use Rattle.std.specs.Prelude.{◌≡◌, IfOk};
ghost use Rattle.st_ast.specs.Tree as tree;
ghost use Rattle.st_ast.specs.View.{view_expr};
ghost use Rattle.grammar.specs.Reader as reader;
ghost use Rattle.st_ast.specs.Grammar.{max_depth};
ghost use Rattle.st_read.specs.Gives.{Gives};
ghost use Rattle.st_read.specs.Reading as reading;
ghost use Rattle.st_read.specs.ReadsUnary.{ReadsUnary};

use crate::error::Stop;
use crate::levels::{Deep, LEVELS, Levels, MAX_CALLS};
use crate::names::{identifier, natural};
use crate::tokens::{Read, Tokens, starts, word};
use cif_base::Boxed;
use st_ast::{StExpr, TokenKind};
use std::alloc::Global;

fn truth(alloc: Global, tokens: Tokens<'_>, kind: TokenKind, value: bool) -> Read<'_, Deep>
    ensures { Gives (λ x. ((view_expr x.0.0, x.0.1), x.1)) result (reader.deep_map (reading.truth_of value) (reading.flat_word kind) tokens.entry) }
{
    let (_word, rest) = word(tokens, kind)?;
    Ok(((Boxed::new(alloc, StExpr::Bool(value))?, 0), rest))
}

fn number(alloc: Global, tokens: Tokens<'_>) -> Read<'_, Deep>
    ensures { Gives (λ x. ((view_expr x.0.0, x.0.1), x.1)) result (reader.deep_map tree.number (reader.flat_at reading.natural_at) tokens.entry) }
{
    let (value, rest) = natural(tokens)?;
    Ok(((Boxed::new(alloc, StExpr::Int(value as i64))?, 0), rest))
}

fn named(alloc: Global, tokens: Tokens<'_>) -> Read<'_, Deep>
    ensures { Gives (λ x. ((view_expr x.0.0, x.0.1), x.1)) result (reader.deep_map tree.named (reader.flat_at reading.identifier_at) tokens.entry) }
{
    let (name, rest) = identifier(alloc, tokens)?;
    Ok(((Boxed::new(alloc, StExpr::Named(name))?, 0), rest))
}

impl<F: Fn(Global, Tokens<'_>, u16) -> Result<(Deep, Tokens<'_>), Stop>> Levels<F> {
    /// An expression in parentheses.
    #[tactic(auto, unfolding(crate::specs::Reading::one_argument_at))]
    fn one_argument<'a>(&self, tokens: Tokens<'a>) -> Read<'a, Deep>
        requires { ReadsUnary self.now.fuel (F.pre self.now.unary) (F.post self.now.unary) }
        ensures { Gives (λ x. ((view_expr x.0.0, x.0.1), x.1)) result (reading.one_argument_at (reading.within_at self.now.fuel) tokens.entry) }
    {
        let (_open, rest) = word(tokens, TokenKind::Open)?;
        let ((e, depth), rest) = self.within(rest)?;
        let (_close, rest) = word(rest, TokenKind::Close)?;
        Ok(((e, depth), rest))
    }

    /// Two expressions in parentheses.
    #[tactic(auto, unfolding(crate::specs::Reading::two_arguments_at))]
    fn two_arguments<'a>(
        &self,
        tokens: Tokens<'a>,
    ) -> Read<'a, ((Boxed<StExpr>, Boxed<StExpr>), u16)>
        requires { ReadsUnary self.now.fuel (F.pre self.now.unary) (F.post self.now.unary) }
        ensures { Gives (λ x. (((view_expr x.0.0.0, view_expr x.0.0.1), x.0.1), x.1)) result (reading.two_arguments_at (reading.within_at self.now.fuel) tokens.entry) }
    {
        let (_open, rest) = word(tokens, TokenKind::Open)?;
        let ((a, depth), rest) = self.within(rest)?;
        let (_comma, rest) = word(rest, TokenKind::Comma)?;
        let ((b, deep), rest) = self.within(rest)?;
        let (_close, rest) = word(rest, TokenKind::Close)?;
        Ok((((a, b), depth.max(deep)), rest))
    }

    /// Three expressions in parentheses.
    #[tactic(auto, unfolding(crate::specs::Reading::three_arguments_at))]
    fn three_arguments<'a>(
        &self,
        tokens: Tokens<'a>,
    ) -> Read<'a, ((Boxed<StExpr>, (Boxed<StExpr>, Boxed<StExpr>)), u16)>
        requires { ReadsUnary self.now.fuel (F.pre self.now.unary) (F.post self.now.unary) }
        ensures { Gives (λ x. (((view_expr x.0.0.0, (view_expr x.0.0.1.0, view_expr x.0.0.1.1)), x.0.1), x.1)) result (reading.three_arguments_at (reading.within_at self.now.fuel) tokens.entry) }
    {
        let (_open, rest) = word(tokens, TokenKind::Open)?;
        let ((a, first), rest) = self.within(rest)?;
        let (_comma, rest) = word(rest, TokenKind::Comma)?;
        let ((b, second), rest) = self.within(rest)?;
        let (_comma, rest) = word(rest, TokenKind::Comma)?;
        let ((c, third), rest) = self.within(rest)?;
        let (_close, rest) = word(rest, TokenKind::Close)?;
        Ok((((a, (b, c)), first.max(second.max(third))), rest))
    }

    fn absolute<'a>(&self, tokens: Tokens<'a>) -> Read<'a, Deep>
        requires { ReadsUnary self.now.fuel (F.pre self.now.unary) (F.post self.now.unary) }
        ensures { Gives (λ x. ((view_expr x.0.0, x.0.1), x.1)) result (reader.deep_map reading.absolute_of (reader.deep_both (reading.flat_word TokenKind.Abs) (reading.one_argument_at (reading.within_at self.now.fuel))) tokens.entry) }
    {
        let (_abs, rest) = word(tokens, TokenKind::Abs)?;
        let ((e, depth), rest) = self.one_argument(rest)?;
        Ok(((Boxed::new(self.alloc, StExpr::Abs(e))?, depth), rest))
    }

    fn least<'a>(&self, tokens: Tokens<'a>) -> Read<'a, Deep>
        requires { ReadsUnary self.now.fuel (F.pre self.now.unary) (F.post self.now.unary) }
        ensures { Gives (λ x. ((view_expr x.0.0, x.0.1), x.1)) result (reader.deep_map reading.least_of (reader.deep_both (reading.flat_word TokenKind.Min) (reading.two_arguments_at (reading.within_at self.now.fuel))) tokens.entry) }
    {
        let (_min, rest) = word(tokens, TokenKind::Min)?;
        let (((a, b), depth), rest) = self.two_arguments(rest)?;
        Ok(((Boxed::new(self.alloc, StExpr::Min(a, b))?, depth), rest))
    }

    fn greatest<'a>(&self, tokens: Tokens<'a>) -> Read<'a, Deep>
        requires { ReadsUnary self.now.fuel (F.pre self.now.unary) (F.post self.now.unary) }
        ensures { Gives (λ x. ((view_expr x.0.0, x.0.1), x.1)) result (reader.deep_map reading.greatest_of (reader.deep_both (reading.flat_word TokenKind.Max) (reading.two_arguments_at (reading.within_at self.now.fuel))) tokens.entry) }
    {
        let (_max, rest) = word(tokens, TokenKind::Max)?;
        let (((a, b), depth), rest) = self.two_arguments(rest)?;
        Ok(((Boxed::new(self.alloc, StExpr::Max(a, b))?, depth), rest))
    }

    fn selection<'a>(&self, tokens: Tokens<'a>) -> Read<'a, Deep>
        requires { ReadsUnary self.now.fuel (F.pre self.now.unary) (F.post self.now.unary) }
        ensures { Gives (λ x. ((view_expr x.0.0, x.0.1), x.1)) result (reader.deep_map reading.selection_of (reader.deep_both (reading.flat_word TokenKind.Sel) (reading.three_arguments_at (reading.within_at self.now.fuel))) tokens.entry) }
    {
        let (_sel, rest) = word(tokens, TokenKind::Sel)?;
        let (((g, (a, b)), depth), rest) = self.three_arguments(rest)?;
        Ok(((Boxed::new(self.alloc, StExpr::Sel(g, a, b))?, depth), rest))
    }

    /// A function with its arguments.
    #[tactic(auto, unfolding(crate::specs::Reading::function_at))]
    fn function<'a>(&self, tokens: Tokens<'a>) -> Read<'a, Deep>
        requires { ReadsUnary self.now.fuel (F.pre self.now.unary) (F.post self.now.unary) }
        ensures { Gives (λ x. ((view_expr x.0.0, x.0.1), x.1)) result (reading.function_at (reading.within_at self.now.fuel) tokens.entry) }
    {
        if starts(&tokens, &[TokenKind::Abs]) {
            self.absolute(tokens)
        } else if starts(&tokens, &[TokenKind::Min]) {
            self.least(tokens)
        } else if starts(&tokens, &[TokenKind::Max]) {
            self.greatest(tokens)
        } else {
            self.selection(tokens)
        }
    }

    fn paren<'a>(&self, tokens: Tokens<'a>) -> Read<'a, Deep>
        requires { ReadsUnary self.now.fuel (F.pre self.now.unary) (F.post self.now.unary) }
        ensures { Gives (λ x. ((view_expr x.0.0, x.0.1), x.1)) result (reader.deep_map tree.paren (reading.one_argument_at (reading.within_at self.now.fuel)) tokens.entry) }
    {
        let ((e, depth), rest) = self.one_argument(tokens)?;
        Ok(((Boxed::new(self.alloc, StExpr::Paren(e))?, depth), rest))
    }

    #[tactic(auto, unfolding(crate::specs::Reading::prim_at))]
    fn prim<'a>(&self, tokens: Tokens<'a>) -> Read<'a, Deep>
        requires { ReadsUnary self.now.fuel (F.pre self.now.unary) (F.post self.now.unary) }
        ensures { Gives (λ x. ((view_expr x.0.0, x.0.1), x.1)) result (reading.prim_at (reading.within_at self.now.fuel) tokens.entry) }
    {
        if starts(&tokens, &[TokenKind::True]) {
            truth(self.alloc, tokens, TokenKind::True, true)
        } else if starts(&tokens, &[TokenKind::False]) {
            truth(self.alloc, tokens, TokenKind::False, false)
        } else if starts(&tokens, &[TokenKind::Literal]) {
            number(self.alloc, tokens)
        } else if starts(&tokens, &[TokenKind::Name]) {
            named(self.alloc, tokens)
        } else if starts(&tokens, &[TokenKind::Open]) {
            self.paren(tokens)
        } else {
            self.function(tokens)
        }
    }

    fn negation<'a>(&self, tokens: Tokens<'a>) -> Read<'a, Deep>
        requires { ReadsUnary self.now.fuel (F.pre self.now.unary) (F.post self.now.unary) }
        ensures { Gives (λ x. ((view_expr x.0.0, x.0.1), x.1)) result (reader.deep_map reading.negation_of (reader.deep_both (reading.flat_word TokenKind.Dash) (reader.inside max_depth (reading.unary_at self.now.fuel))) tokens.entry) }
    {
        let (_dash, rest) = word(tokens, TokenKind::Dash)?;
        let ((e, depth), rest) = self.inner_operand(rest)?;
        Ok(((Boxed::new(self.alloc, StExpr::Neg(e))?, depth), rest))
    }

    fn complement<'a>(&self, tokens: Tokens<'a>) -> Read<'a, Deep>
        requires { ReadsUnary self.now.fuel (F.pre self.now.unary) (F.post self.now.unary) }
        ensures { Gives (λ x. ((view_expr x.0.0, x.0.1), x.1)) result (reader.deep_map reading.complement_of (reader.deep_both (reading.flat_word TokenKind.Not) (reader.inside max_depth (reading.unary_at self.now.fuel))) tokens.entry) }
    {
        let (_not, rest) = word(tokens, TokenKind::Not)?;
        let ((e, depth), rest) = self.inner_operand(rest)?;
        Ok(((Boxed::new(self.alloc, StExpr::Not(e))?, depth), rest))
    }

    #[tactic(auto, unfolding(crate::specs::Reading::unary_from))]
    fn step<'a>(&self, tokens: Tokens<'a>) -> Read<'a, Deep>
        requires { ReadsUnary self.now.fuel (F.pre self.now.unary) (F.post self.now.unary) }
        ensures { Gives (λ x. ((view_expr x.0.0, x.0.1), x.1)) result (reading.unary_from (reading.within_at self.now.fuel) (reader.inside max_depth (reading.unary_at self.now.fuel)) tokens.entry) }
    {
        if starts(&tokens, &[TokenKind::Dash]) {
            self.negation(tokens)
        } else if starts(&tokens, &[TokenKind::Not]) {
            self.complement(tokens)
        } else {
            self.prim(tokens)
        }
    }
}

/// An operand, where so many forms may nest.
#[tactic(auto, unfolding(crate::specs::Reading::unary_at))]
fn unary(alloc: Global, tokens: Tokens<'_>, fuel: u16) -> Result<(Deep, Tokens<'_>), Stop>
    ensures { Gives (λ x. ((view_expr x.0.0, x.0.1), x.1)) result (reading.unary_at fuel tokens.entry) }
{
    if fuel == 0 {
        return Err(Stop::NotTaken(tokens.left()));
    }
    let fuel = fuel - 1;
    Levels { alloc, fuel, unary }.step(tokens)
}

/// An expression, in a box, in which it is quick to check.
#[tactic(auto, unfolding(crate::specs::Reading::expression_at))]
pub fn expression(alloc: Global, tokens: Tokens<'_>) -> Read<'_, Boxed<StExpr>>
    ensures { Gives (λ x. (view_expr x.0, x.1)) result (reading.expression_at tokens.entry) }
{
    let fuel = MAX_CALLS;
    let ((e, _depth), rest) = Levels { alloc, fuel, unary }.at(LEVELS, tokens)?;
    Ok((e, rest))
}
