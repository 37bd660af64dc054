//! Expressions, level by level. The reader of operands with a sign is a parameter, so that each rule is proved by itself.

ghost use Rattle.std.specs.Prelude.{◌≡◌};
ghost use Rattle.cif_lex.specs.declared.token.Word.TheVariants as w;
ghost use Rattle.grammar.specs.Reader as reader;
ghost use Rattle.cif_parse_expr.specs.Gives.{Gives};
ghost use Rattle.cif_parse_expr.specs.TokenKinds as kinds;
ghost use Rattle.cif_parse_expr.specs.Reading as reading;
ghost use Rattle.cif_parse_expr.specs.ReadsUn.{ReadsUn};

use crate::error::ReadError;
use crate::forms::{
    comparison, conjunction, disjunction, factor, implication, is_minus, mul_op, product, sum, term,
};
use crate::tokens::{Read, any_of, starts, word};
use cif_ast::{Expr, Factor, Term};
use cif_base::{Boxed, Items};
use cif_lex::{Mark, Token, TokenKind, Word};
use std::alloc::Global;

/// The greatest depth of an expression.
pub const MAX_DEPTH: u8 = 100;

/// A reader of expressions over one of operands with a sign.
#[derive(Clone, Copy)]
pub struct Grammar<'t, F> {
    pub alloc: Global,
    /// The source that the tokens are of.
    pub text: &'t [u8],
    /// How deep operands may still nest.
    pub fuel: u8,
    pub un: F,
}

/// One more level.
#[tactic(auto, unfolding(grammar::specs::Reader::level))]
pub fn level(e: Boxed<Expr>, depth: u8, rest: &[Token]) -> Read<'_, (Boxed<Expr>, u8)>
    ensures { Gives (λ x. (x.0, x.1.now)) result (reader.level 100 e depth rest.now) }
{
    if depth < MAX_DEPTH {
        Ok(((e, depth + 1), rest))
    } else {
        Err(ReadError::TooDeep)
    }
}

impl<
    't,
    F: for<'a> Fn(
        Global,
        &'t [u8],
        &'a [Token],
        u8,
    ) -> Result<((Boxed<Expr>, u8), &'a [Token]), ReadError>,
> Grammar<'t, F> {
    fn operand<'a>(&self, tokens: &'a [Token]) -> Read<'a, (Boxed<Expr>, u8)>
        requires { ReadsUn self.now.text self.now.fuel (F.pre self.now.un) (F.post self.now.un) }
        ensures { Gives (λ x. (x.0, x.1.now)) result (reading.un_at self.now.text.now self.now.fuel tokens.now) }
    {
        (self.un)(self.alloc, self.text, tokens, self.fuel)
    }

    pub fn inner_operand<'a>(&self, tokens: &'a [Token]) -> Read<'a, (Boxed<Expr>, u8)>
        requires { ReadsUn self.now.text self.now.fuel (F.pre self.now.un) (F.post self.now.un) }
        ensures { Gives (λ x. (x.0, x.1.now)) result (reader.inside 100 (reading.un_at self.now.text.now self.now.fuel) tokens.now) }
    {
        let ((e, depth), rest) = self.operand(tokens)?;
        level(e, depth, rest)
    }

    /// A further operand of a product.
    #[tactic(auto, unfolding(crate::specs::Reading::factor_at))]
    fn factor<'a>(&self, tokens: &'a [Token]) -> Read<'a, (Boxed<Factor>, u8)>
        requires { ReadsUn self.now.text self.now.fuel (F.pre self.now.un) (F.post self.now.un) }
        ensures { Gives (λ x. (x.0, x.1.now)) result (reading.factor_at (reading.un_at self.now.text.now self.now.fuel) tokens.now) }
    {
        let (sign, rest) = any_of(
            tokens,
            &[
                TokenKind::Sign(Mark::Star),
                TokenKind::Reserved(Word::Div),
                TokenKind::Reserved(Word::Mod),
            ],
        )?;
        let ((value, depth), rest) = self.inner_operand(rest)?;
        let op = mul_op(sign.kind);
        Ok(((factor(self.alloc, op, value)?, depth), rest))
    }

    /// The operands of a product after the first.
    #[tactic(auto, using(grammar::proofs::Loops::deep_step, grammar::proofs::Loops::deep_stop, grammar::proofs::Loops::deep_fail, grammar::proofs::Loops::deep_end, grammar::proofs::Loops::deep_after_none))]
    fn factors<'a>(&self, tokens: &'a [Token]) -> Read<'a, (Items<Factor>, u8)>
        requires { ReadsUn self.now.text self.now.fuel (F.pre self.now.un) (F.post self.now.un) }
        ensures { Gives (λ x. (x.0, x.1.now)) result (reader.deep_many kinds.sort reading.mul_signs (reading.factor_at (reading.un_at self.now.text.now self.now.fuel)) tokens.now) }
    {
        let mut found = Items::new(self.alloc);
        let mut deep = 0;
        let mut rest = tokens;
        for _turn in 0..tokens.len() {
            if !starts(
                rest,
                &[
                    TokenKind::Sign(Mark::Star),
                    TokenKind::Reserved(Word::Div),
                    TokenKind::Reserved(Word::Mod),
                ],
            ) {
                return Ok(((found, deep), rest));
            }
            let ((item, depth), left) = self.factor(rest)?;
            found.push(item.into_inner())?;
            deep = deep.max(depth);
            rest = left;
        }
        Ok(((found, deep), rest))
    }

    /// A product, or an operand alone.
    #[tactic(auto, using(grammar::proofs::Loops::chained_more), unfolding(crate::specs::Reading::prod_from))]
    fn prod<'a>(&self, tokens: &'a [Token]) -> Read<'a, (Boxed<Expr>, u8)>
        requires { ReadsUn self.now.text self.now.fuel (F.pre self.now.un) (F.post self.now.un) }
        ensures { Gives (λ x. (x.0, x.1.now)) result (reading.prod_from (reading.un_at self.now.text.now self.now.fuel) tokens.now) }
    {
        let ((first, depth), rest) = self.operand(tokens)?;
        let ((more, deep), rest) = self.factors(rest)?;
        if more.is_empty() {
            return Ok(((first, depth), rest));
        }
        let ((first, depth), rest) = level(first, depth, rest)?;
        Ok(((product(self.alloc, first, more)?, depth.max(deep)), rest))
    }

    fn inner_prod<'a>(&self, tokens: &'a [Token]) -> Read<'a, (Boxed<Expr>, u8)>
        requires { ReadsUn self.now.text self.now.fuel (F.pre self.now.un) (F.post self.now.un) }
        ensures { Gives (λ x. (x.0, x.1.now)) result (reader.inside 100 (reading.prod_from (reading.un_at self.now.text.now self.now.fuel)) tokens.now) }
    {
        let ((e, depth), rest) = self.prod(tokens)?;
        level(e, depth, rest)
    }

    /// A further operand of a sum.
    #[tactic(auto, unfolding(crate::specs::Reading::term_at))]
    fn term<'a>(&self, tokens: &'a [Token]) -> Read<'a, (Boxed<Term>, u8)>
        requires { ReadsUn self.now.text self.now.fuel (F.pre self.now.un) (F.post self.now.un) }
        ensures { Gives (λ x. (x.0, x.1.now)) result (reading.term_at (reading.un_at self.now.text.now self.now.fuel) tokens.now) }
    {
        let (sign, rest) = any_of(
            tokens,
            &[TokenKind::Sign(Mark::Plus), TokenKind::Sign(Mark::Minus)],
        )?;
        let ((value, depth), rest) = self.inner_prod(rest)?;
        let minus = is_minus(sign.kind);
        Ok(((term(self.alloc, minus, value)?, depth), rest))
    }

    /// The operands of a sum after the first.
    #[tactic(auto, using(grammar::proofs::Loops::deep_step, grammar::proofs::Loops::deep_stop, grammar::proofs::Loops::deep_fail, grammar::proofs::Loops::deep_end, grammar::proofs::Loops::deep_after_none))]
    fn terms<'a>(&self, tokens: &'a [Token]) -> Read<'a, (Items<Term>, u8)>
        requires { ReadsUn self.now.text self.now.fuel (F.pre self.now.un) (F.post self.now.un) }
        ensures { Gives (λ x. (x.0, x.1.now)) result (reader.deep_many kinds.sort reading.sum_signs (reading.term_at (reading.un_at self.now.text.now self.now.fuel)) tokens.now) }
    {
        let mut found = Items::new(self.alloc);
        let mut deep = 0;
        let mut rest = tokens;
        for _turn in 0..tokens.len() {
            if !starts(
                rest,
                &[TokenKind::Sign(Mark::Plus), TokenKind::Sign(Mark::Minus)],
            ) {
                return Ok(((found, deep), rest));
            }
            let ((item, depth), left) = self.term(rest)?;
            found.push(item.into_inner())?;
            deep = deep.max(depth);
            rest = left;
        }
        Ok(((found, deep), rest))
    }

    /// A sum, or an operand alone.
    #[tactic(auto, using(grammar::proofs::Loops::chained_more), unfolding(crate::specs::Reading::sum_from))]
    fn sum<'a>(&self, tokens: &'a [Token]) -> Read<'a, (Boxed<Expr>, u8)>
        requires { ReadsUn self.now.text self.now.fuel (F.pre self.now.un) (F.post self.now.un) }
        ensures { Gives (λ x. (x.0, x.1.now)) result (reading.sum_from (reading.un_at self.now.text.now self.now.fuel) tokens.now) }
    {
        let ((first, depth), rest) = self.prod(tokens)?;
        let ((more, deep), rest) = self.terms(rest)?;
        if more.is_empty() {
            return Ok(((first, depth), rest));
        }
        let ((first, depth), rest) = level(first, depth, rest)?;
        Ok(((sum(self.alloc, first, more)?, depth.max(deep)), rest))
    }

    fn inner_sum<'a>(&self, tokens: &'a [Token]) -> Read<'a, (Boxed<Expr>, u8)>
        requires { ReadsUn self.now.text self.now.fuel (F.pre self.now.un) (F.post self.now.un) }
        ensures { Gives (λ x. (x.0, x.1.now)) result (reader.inside 100 (reading.sum_from (reading.un_at self.now.text.now self.now.fuel)) tokens.now) }
    {
        let ((e, depth), rest) = self.sum(tokens)?;
        level(e, depth, rest)
    }

    /// A comparison, or an operand alone.
    #[tactic(auto, unfolding(crate::specs::Reading::cmp_from, crate::specs::Reading::compared_at))]
    fn cmp<'a>(&self, tokens: &'a [Token]) -> Read<'a, (Boxed<Expr>, u8)>
        requires { ReadsUn self.now.text self.now.fuel (F.pre self.now.un) (F.post self.now.un) }
        ensures { Gives (λ x. (x.0, x.1.now)) result (reading.cmp_from (reading.un_at self.now.text.now self.now.fuel) tokens.now) }
    {
        let ((left, depth), rest) = self.sum(tokens)?;
        if !starts(
            rest,
            &[
                TokenKind::Sign(Mark::Equal),
                TokenKind::Sign(Mark::NotEqual),
                TokenKind::Sign(Mark::Less),
                TokenKind::Sign(Mark::LessEqual),
                TokenKind::Sign(Mark::Greater),
                TokenKind::Sign(Mark::GreaterEqual),
            ],
        ) {
            return Ok(((left, depth), rest));
        }
        let (sign, rest) = any_of(
            rest,
            &[
                TokenKind::Sign(Mark::Equal),
                TokenKind::Sign(Mark::NotEqual),
                TokenKind::Sign(Mark::Less),
                TokenKind::Sign(Mark::LessEqual),
                TokenKind::Sign(Mark::Greater),
                TokenKind::Sign(Mark::GreaterEqual),
            ],
        )?;
        let ((right, deep), rest) = self.inner_sum(rest)?;
        let ((left, depth), rest) = level(left, depth, rest)?;
        Ok((
            (comparison(self.alloc, left, sign, right)?, depth.max(deep)),
            rest,
        ))
    }

    fn inner_cmp<'a>(&self, tokens: &'a [Token]) -> Read<'a, (Boxed<Expr>, u8)>
        requires { ReadsUn self.now.text self.now.fuel (F.pre self.now.un) (F.post self.now.un) }
        ensures { Gives (λ x. (x.0, x.1.now)) result (reader.inside 100 (reading.cmp_from (reading.un_at self.now.text.now self.now.fuel)) tokens.now) }
    {
        let ((e, depth), rest) = self.cmp(tokens)?;
        level(e, depth, rest)
    }

    /// An operand after the word.
    #[tactic(auto, unfolding(crate::specs::Reading::and_next_at))]
    fn and_next<'a>(&self, tokens: &'a [Token]) -> Read<'a, (Boxed<Expr>, u8)>
        requires { ReadsUn self.now.text self.now.fuel (F.pre self.now.un) (F.post self.now.un) }
        ensures { Gives (λ x. (x.0, x.1.now)) result (reading.and_next_at (reading.un_at self.now.text.now self.now.fuel) tokens.now) }
    {
        let (_word, rest) = word(tokens, Word::And)?;
        self.inner_cmp(rest)
    }

    /// The operands after the first.
    #[tactic(auto, using(grammar::proofs::Loops::deep_step, grammar::proofs::Loops::deep_stop, grammar::proofs::Loops::deep_fail, grammar::proofs::Loops::deep_end, grammar::proofs::Loops::deep_after_none))]
    fn and_more<'a>(&self, tokens: &'a [Token]) -> Read<'a, (Items<Expr>, u8)>
        requires { ReadsUn self.now.text self.now.fuel (F.pre self.now.un) (F.post self.now.un) }
        ensures { Gives (λ x. (x.0, x.1.now)) result (reader.deep_many kinds.sort (reading.first_word w.And) (reading.and_next_at (reading.un_at self.now.text.now self.now.fuel)) tokens.now) }
    {
        let mut found = Items::new(self.alloc);
        let mut deep = 0;
        let mut rest = tokens;
        for _turn in 0..tokens.len() {
            if !starts(rest, &[TokenKind::Reserved(Word::And)]) {
                return Ok(((found, deep), rest));
            }
            let ((item, depth), left) = self.and_next(rest)?;
            found.push(item.into_inner())?;
            deep = deep.max(depth);
            rest = left;
        }
        Ok(((found, deep), rest))
    }

    /// Operands with the word between them, or one alone.
    #[tactic(auto, using(grammar::proofs::Loops::chained_more), unfolding(crate::specs::Reading::and_from))]
    fn and<'a>(&self, tokens: &'a [Token]) -> Read<'a, (Boxed<Expr>, u8)>
        requires { ReadsUn self.now.text self.now.fuel (F.pre self.now.un) (F.post self.now.un) }
        ensures { Gives (λ x. (x.0, x.1.now)) result (reading.and_from (reading.un_at self.now.text.now self.now.fuel) tokens.now) }
    {
        let ((first, depth), rest) = self.cmp(tokens)?;
        let ((more, deep), rest) = self.and_more(rest)?;
        if more.is_empty() {
            return Ok(((first, depth), rest));
        }
        let ((first, depth), rest) = level(first, depth, rest)?;
        Ok((
            (conjunction(self.alloc, first, more)?, depth.max(deep)),
            rest,
        ))
    }

    fn inner_and<'a>(&self, tokens: &'a [Token]) -> Read<'a, (Boxed<Expr>, u8)>
        requires { ReadsUn self.now.text self.now.fuel (F.pre self.now.un) (F.post self.now.un) }
        ensures { Gives (λ x. (x.0, x.1.now)) result (reader.inside 100 (reading.and_from (reading.un_at self.now.text.now self.now.fuel)) tokens.now) }
    {
        let ((e, depth), rest) = self.and(tokens)?;
        level(e, depth, rest)
    }

    /// An operand after the word.
    #[tactic(auto, unfolding(crate::specs::Reading::or_next_at))]
    fn or_next<'a>(&self, tokens: &'a [Token]) -> Read<'a, (Boxed<Expr>, u8)>
        requires { ReadsUn self.now.text self.now.fuel (F.pre self.now.un) (F.post self.now.un) }
        ensures { Gives (λ x. (x.0, x.1.now)) result (reading.or_next_at (reading.un_at self.now.text.now self.now.fuel) tokens.now) }
    {
        let (_word, rest) = word(tokens, Word::Or)?;
        self.inner_and(rest)
    }

    /// The operands after the first.
    #[tactic(auto, using(grammar::proofs::Loops::deep_step, grammar::proofs::Loops::deep_stop, grammar::proofs::Loops::deep_fail, grammar::proofs::Loops::deep_end, grammar::proofs::Loops::deep_after_none))]
    fn or_more<'a>(&self, tokens: &'a [Token]) -> Read<'a, (Items<Expr>, u8)>
        requires { ReadsUn self.now.text self.now.fuel (F.pre self.now.un) (F.post self.now.un) }
        ensures { Gives (λ x. (x.0, x.1.now)) result (reader.deep_many kinds.sort (reading.first_word w.Or) (reading.or_next_at (reading.un_at self.now.text.now self.now.fuel)) tokens.now) }
    {
        let mut found = Items::new(self.alloc);
        let mut deep = 0;
        let mut rest = tokens;
        for _turn in 0..tokens.len() {
            if !starts(rest, &[TokenKind::Reserved(Word::Or)]) {
                return Ok(((found, deep), rest));
            }
            let ((item, depth), left) = self.or_next(rest)?;
            found.push(item.into_inner())?;
            deep = deep.max(depth);
            rest = left;
        }
        Ok(((found, deep), rest))
    }

    /// Operands with the word between them, or one alone.
    #[tactic(auto, using(grammar::proofs::Loops::chained_more), unfolding(crate::specs::Reading::or_from))]
    fn or<'a>(&self, tokens: &'a [Token]) -> Read<'a, (Boxed<Expr>, u8)>
        requires { ReadsUn self.now.text self.now.fuel (F.pre self.now.un) (F.post self.now.un) }
        ensures { Gives (λ x. (x.0, x.1.now)) result (reading.or_from (reading.un_at self.now.text.now self.now.fuel) tokens.now) }
    {
        let ((first, depth), rest) = self.and(tokens)?;
        let ((more, deep), rest) = self.or_more(rest)?;
        if more.is_empty() {
            return Ok(((first, depth), rest));
        }
        let ((first, depth), rest) = level(first, depth, rest)?;
        Ok((
            (disjunction(self.alloc, first, more)?, depth.max(deep)),
            rest,
        ))
    }

    fn inner_or<'a>(&self, tokens: &'a [Token]) -> Read<'a, (Boxed<Expr>, u8)>
        requires { ReadsUn self.now.text self.now.fuel (F.pre self.now.un) (F.post self.now.un) }
        ensures { Gives (λ x. (x.0, x.1.now)) result (reader.inside 100 (reading.or_from (reading.un_at self.now.text.now self.now.fuel)) tokens.now) }
    {
        let ((e, depth), rest) = self.or(tokens)?;
        level(e, depth, rest)
    }

    /// An expression.
    #[tactic(auto, unfolding(crate::specs::Reading::expr_from, crate::specs::Reading::implied_at))]
    pub fn expr<'a>(&self, tokens: &'a [Token]) -> Read<'a, (Boxed<Expr>, u8)>
        requires { ReadsUn self.now.text self.now.fuel (F.pre self.now.un) (F.post self.now.un) }
        ensures { Gives (λ x. (x.0, x.1.now)) result (reading.expr_from (reading.un_at self.now.text.now self.now.fuel) tokens.now) }
    {
        let ((left, depth), rest) = self.or(tokens)?;
        if !starts(
            rest,
            &[TokenKind::Sign(Mark::Implies), TokenKind::Sign(Mark::Iff)],
        ) {
            return Ok(((left, depth), rest));
        }
        let (sign, rest) = any_of(
            rest,
            &[TokenKind::Sign(Mark::Implies), TokenKind::Sign(Mark::Iff)],
        )?;
        let ((right, deep), rest) = self.inner_or(rest)?;
        let ((left, depth), rest) = level(left, depth, rest)?;
        Ok((
            (implication(self.alloc, left, sign, right)?, depth.max(deep)),
            rest,
        ))
    }
}
