//! Operands: what stands alone or in brackets, and operands with a sign.

ghost use Rattle.std.specs.Prelude.{◌≡◌};
ghost use Rattle.cif_lex.specs.declared.token.Word.TheVariants as w;
ghost use Rattle.cif_lex.specs.declared.token.Mark.TheVariants as m;
ghost use Rattle.cif_lex.specs.declared.token.TokenKind.TheVariants.{Reserved as reserved, Sign as marked};
ghost use Rattle.grammar.specs.Loops.{deep_after};
ghost use Rattle.grammar.specs.Reader as reader;
ghost use Rattle.cif_parse_expr.specs.Gives.{Gives};
ghost use Rattle.cif_parse_expr.specs.TokenKinds as kinds;
ghost use Rattle.cif_parse_expr.specs.Reading as reading;
ghost use Rattle.cif_parse_expr.specs.ReadsUn.{ReadsUn};
ghost use Rattle.cif_parse_expr.specs.Trees as tree;

use crate::error::ReadError;
use crate::forms::{
    absolute, branch, choice, greatest, least, negation, negative, node, paren, positive,
};
use crate::levels::{Grammar, level};
use crate::naming::name;
use crate::parts::only;
use crate::spelling::value;
use crate::tokens::{Read, kind, sign, starts, word};
use cif_ast::{Branch, Expr, Form};
use cif_base::{Boxed, Items};
use cif_lex::{Mark, Token, TokenKind, Word};
use std::alloc::Global;

/// `true` or `false`.
fn boolean(alloc: Global, tokens: &[Token], name: Word, value: bool) -> Read<'_, (Boxed<Expr>, u8)>
    ensures { Gives (λ x. (x.0, x.1.now)) result (reader.deep_map (tree.boolean value) (reading.flat_word name) tokens.now) }
{
    let (token, rest) = word(tokens, name)?;
    let form = Form::Bool(value);
    let at = token.span.from;
    Ok(((node(alloc, form, at)?, 0), rest))
}

/// A number.
#[tactic(auto, unfolding(crate::specs::Reading::number_at, crate::specs::Spelling::is_small, crate::specs::Spelling::value, cif_lex::specs::Tokens::small_number))]
fn number<'a>(alloc: Global, text: &[u8], tokens: &'a [Token]) -> Read<'a, (Boxed<Expr>, u8)>
    ensures { Gives (λ x. (x.0, x.1.now)) result (reader.flat_at (reading.number_at text.now) tokens.now) }
{
    let (token, rest) = kind(tokens, TokenKind::Number)?;
    match value(text, token) {
        Some(value) => {
            let form = Form::Int(i64::from(value));
            let at = token.span.from;
            Ok(((node(alloc, form, at)?, 0), rest))
        }
        None => Err(ReadError::NotRead(tokens.len())),
    }
}

/// A name.
fn named<'a>(alloc: Global, text: &[u8], tokens: &'a [Token]) -> Read<'a, (Boxed<Expr>, u8)>
    ensures { Gives (λ x. (x.0, x.1.now)) result (reader.deep_map tree.named (reader.flat_at (reading.name_at text.now)) tokens.now) }
{
    let (name, rest) = name(alloc, text, tokens)?;
    let at = name.at;
    let form = Form::Named(name);
    Ok(((node(alloc, form, at)?, 0), rest))
}

/// `?`.
fn received(alloc: Global, tokens: &[Token]) -> Read<'_, (Boxed<Expr>, u8)>
    ensures { Gives (λ x. (x.0, x.1.now)) result (reader.deep_map tree.received (reading.flat_sign m.Question) tokens.now) }
{
    let (token, rest) = sign(tokens, Mark::Question)?;
    let form = Form::Received;
    let at = token.span.from;
    Ok(((node(alloc, form, at)?, 0), rest))
}

impl<
    't,
    F: for<'a> Fn(
        Global,
        &'t [u8],
        &'a [Token],
        u8,
    ) -> Result<((Boxed<Expr>, u8), &'a [Token]), ReadError>,
> Grammar<'t, F> {
    fn inner_expr<'a>(&self, tokens: &'a [Token]) -> Read<'a, (Boxed<Expr>, u8)>
        requires { ReadsUn self.now.text self.now.fuel (F.pre self.now.un) (F.post self.now.un) }
        ensures { Gives (λ x. (x.0, x.1.now)) result (reading.whole_at self.now.text.now self.now.fuel tokens.now) }
    {
        let ((e, depth), rest) = self.expr(tokens)?;
        level(e, depth, rest)
    }

    /// An expression after a comma.
    #[tactic(auto, unfolding(crate::specs::Reading::next_at))]
    fn next<'a>(&self, tokens: &'a [Token]) -> Read<'a, (Boxed<Expr>, u8)>
        requires { ReadsUn self.now.text self.now.fuel (F.pre self.now.un) (F.post self.now.un) }
        ensures { Gives (λ x. (x.0, x.1.now)) result (reading.next_at (reading.whole_at self.now.text.now self.now.fuel) tokens.now) }
    {
        let (_comma, rest) = sign(tokens, Mark::Comma)?;
        self.inner_expr(rest)
    }

    /// The expressions after those found.
    #[tactic(auto, using(grammar::proofs::Loops::deep_step, grammar::proofs::Loops::deep_stop, grammar::proofs::Loops::deep_fail, grammar::proofs::Loops::deep_end))]
    fn exprs_more<'a>(
        &self,
        tokens: &'a [Token],
        mut found: Items<Expr>,
        mut deep: u8,
    ) -> Read<'a, (Items<Expr>, u8)>
        requires { ReadsUn self.now.text self.now.fuel (F.pre self.now.un) (F.post self.now.un) }
        ensures { Gives (λ x. (x.0, x.1.now)) result (deep_after found deep (reader.deep_many kinds.sort (reading.first_sign m.Comma) (reading.next_at (reading.whole_at self.now.text.now self.now.fuel)) tokens.now)) }
    {
        let mut rest = tokens;
        for _turn in 0..tokens.len() {
            if !starts(rest, &[TokenKind::Sign(Mark::Comma)]) {
                return Ok(((found, deep), rest));
            }
            let ((item, depth), left) = self.next(rest)?;
            found.push(item.into_inner())?;
            deep = deep.max(depth);
            rest = left;
        }
        Ok(((found, deep), rest))
    }

    /// Expressions with commas between them.
    #[tactic(auto, using(grammar::proofs::Loops::deep_list_after), unfolding(crate::specs::Reading::exprs_at))]
    fn exprs<'a>(&self, tokens: &'a [Token]) -> Read<'a, (Items<Expr>, u8)>
        requires { ReadsUn self.now.text self.now.fuel (F.pre self.now.un) (F.post self.now.un) }
        ensures { Gives (λ x. (x.0, x.1.now)) result (reading.exprs_at (reading.whole_at self.now.text.now self.now.fuel) tokens.now) }
    {
        let ((first, depth), rest) = self.inner_expr(tokens)?;
        let found = only(self.alloc, first.into_inner())?;
        self.exprs_more(rest, found, depth)
    }

    /// Conditions and the value for them.
    #[tactic(auto, unfolding(crate::specs::Reading::branch_at))]
    fn branch<'a>(&self, tokens: &'a [Token]) -> Read<'a, (Boxed<Branch>, u8)>
        requires { ReadsUn self.now.text self.now.fuel (F.pre self.now.un) (F.post self.now.un) }
        ensures { Gives (λ x. (x.0, x.1.now)) result (reading.branch_at (reading.whole_at self.now.text.now self.now.fuel) tokens.now) }
    {
        let ((conds, depth), rest) = self.exprs(tokens)?;
        let (_colon, rest) = sign(rest, Mark::Colon)?;
        let ((value, deep), rest) = self.inner_expr(rest)?;
        Ok(((branch(self.alloc, conds, value)?, depth.max(deep)), rest))
    }

    /// A branch after `elif`.
    #[tactic(auto, unfolding(crate::specs::Reading::other_at))]
    fn other<'a>(&self, tokens: &'a [Token]) -> Read<'a, (Boxed<Branch>, u8)>
        requires { ReadsUn self.now.text self.now.fuel (F.pre self.now.un) (F.post self.now.un) }
        ensures { Gives (λ x. (x.0, x.1.now)) result (reading.other_at (reading.whole_at self.now.text.now self.now.fuel) tokens.now) }
    {
        let (_word, rest) = word(tokens, Word::Elif)?;
        self.branch(rest)
    }

    /// The branches after those found.
    #[tactic(auto, using(grammar::proofs::Loops::deep_step, grammar::proofs::Loops::deep_stop, grammar::proofs::Loops::deep_fail, grammar::proofs::Loops::deep_end))]
    fn others<'a>(
        &self,
        tokens: &'a [Token],
        mut found: Items<Branch>,
        mut deep: u8,
    ) -> Read<'a, (Items<Branch>, u8)>
        requires { ReadsUn self.now.text self.now.fuel (F.pre self.now.un) (F.post self.now.un) }
        ensures { Gives (λ x. (x.0, x.1.now)) result (deep_after found deep (reader.deep_many kinds.sort (reading.first_word w.Elif) (reading.other_at (reading.whole_at self.now.text.now self.now.fuel)) tokens.now)) }
    {
        let mut rest = tokens;
        for _turn in 0..tokens.len() {
            if !starts(rest, &[TokenKind::Reserved(Word::Elif)]) {
                return Ok(((found, deep), rest));
            }
            let ((item, depth), left) = self.other(rest)?;
            found.push(item.into_inner())?;
            deep = deep.max(depth);
            rest = left;
        }
        Ok(((found, deep), rest))
    }

    #[tactic(auto, using(grammar::proofs::Loops::deep_list_after), unfolding(crate::specs::Reading::branches_at))]
    fn branches<'a>(&self, tokens: &'a [Token]) -> Read<'a, (Items<Branch>, u8)>
        requires { ReadsUn self.now.text self.now.fuel (F.pre self.now.un) (F.post self.now.un) }
        ensures { Gives (λ x. (x.0, x.1.now)) result (reading.branches_at (reading.whole_at self.now.text.now self.now.fuel) tokens.now) }
    {
        let ((first, depth), rest) = self.branch(tokens)?;
        let found = only(self.alloc, first.into_inner())?;
        self.others(rest, found, depth)
    }

    /// What an `if` ends with.
    #[tactic(auto, unfolding(crate::specs::Reading::otherwise_at))]
    fn otherwise<'a>(&self, tokens: &'a [Token]) -> Read<'a, (Boxed<Expr>, u8)>
        requires { ReadsUn self.now.text self.now.fuel (F.pre self.now.un) (F.post self.now.un) }
        ensures { Gives (λ x. (x.0, x.1.now)) result (reading.otherwise_at (reading.whole_at self.now.text.now self.now.fuel) tokens.now) }
    {
        let (_else, rest) = word(tokens, Word::Else)?;
        let ((other, depth), rest) = self.inner_expr(rest)?;
        let (_end, rest) = word(rest, Word::End)?;
        Ok(((other, depth), rest))
    }

    /// An `if`.
    #[tactic(auto, unfolding(crate::specs::Reading::choice_at))]
    fn choice<'a>(&self, tokens: &'a [Token]) -> Read<'a, (Boxed<Expr>, u8)>
        requires { ReadsUn self.now.text self.now.fuel (F.pre self.now.un) (F.post self.now.un) }
        ensures { Gives (λ x. (x.0, x.1.now)) result (reading.choice_at (reading.whole_at self.now.text.now self.now.fuel) tokens.now) }
    {
        let (token, rest) = word(tokens, Word::If)?;
        let ((branches, depth), rest) = self.branches(rest)?;
        let ((other, deep), rest) = self.otherwise(rest)?;
        let e = choice(self.alloc, token.span.from, branches, other)?;
        Ok(((e, depth.max(deep)), rest))
    }

    /// An expression in parentheses.
    #[tactic(auto, unfolding(crate::specs::Reading::paren_at))]
    fn paren<'a>(&self, tokens: &'a [Token]) -> Read<'a, (Boxed<Expr>, u8)>
        requires { ReadsUn self.now.text self.now.fuel (F.pre self.now.un) (F.post self.now.un) }
        ensures { Gives (λ x. (x.0, x.1.now)) result (reading.paren_at (reading.whole_at self.now.text.now self.now.fuel) tokens.now) }
    {
        let (token, rest) = sign(tokens, Mark::OpenParen)?;
        let ((inner, depth), rest) = self.inner_expr(rest)?;
        let (_close, rest) = sign(rest, Mark::CloseParen)?;
        Ok(((paren(self.alloc, token.span.from, inner)?, depth), rest))
    }

    #[tactic(auto, unfolding(crate::specs::Reading::abs_at))]
    fn absolute<'a>(&self, tokens: &'a [Token]) -> Read<'a, (Boxed<Expr>, u8)>
        requires { ReadsUn self.now.text self.now.fuel (F.pre self.now.un) (F.post self.now.un) }
        ensures { Gives (λ x. (x.0, x.1.now)) result (reading.abs_at (reading.whole_at self.now.text.now self.now.fuel) tokens.now) }
    {
        let (token, rest) = word(tokens, Word::Abs)?;
        let (_open, rest) = sign(rest, Mark::OpenParen)?;
        let ((inner, depth), rest) = self.inner_expr(rest)?;
        let (_close, rest) = sign(rest, Mark::CloseParen)?;
        Ok(((absolute(self.alloc, token.span.from, inner)?, depth), rest))
    }

    #[tactic(auto, unfolding(crate::specs::Reading::two_at))]
    fn least<'a>(&self, tokens: &'a [Token]) -> Read<'a, (Boxed<Expr>, u8)>
        requires { ReadsUn self.now.text self.now.fuel (F.pre self.now.un) (F.post self.now.un) }
        ensures { Gives (λ x. (x.0, x.1.now)) result (reading.two_at (reading.whole_at self.now.text.now self.now.fuel) w.Min tree.least tokens.now) }
    {
        let (token, rest) = word(tokens, Word::Min)?;
        let (_open, rest) = sign(rest, Mark::OpenParen)?;
        let ((first, depth), rest) = self.inner_expr(rest)?;
        let (_comma, rest) = sign(rest, Mark::Comma)?;
        let ((other, deep), rest) = self.inner_expr(rest)?;
        let (_close, rest) = sign(rest, Mark::CloseParen)?;
        let e = least(self.alloc, token.span.from, first, other)?;
        Ok(((e, depth.max(deep)), rest))
    }

    #[tactic(auto, unfolding(crate::specs::Reading::two_at))]
    fn greatest<'a>(&self, tokens: &'a [Token]) -> Read<'a, (Boxed<Expr>, u8)>
        requires { ReadsUn self.now.text self.now.fuel (F.pre self.now.un) (F.post self.now.un) }
        ensures { Gives (λ x. (x.0, x.1.now)) result (reading.two_at (reading.whole_at self.now.text.now self.now.fuel) w.Max tree.greatest tokens.now) }
    {
        let (token, rest) = word(tokens, Word::Max)?;
        let (_open, rest) = sign(rest, Mark::OpenParen)?;
        let ((first, depth), rest) = self.inner_expr(rest)?;
        let (_comma, rest) = sign(rest, Mark::Comma)?;
        let ((other, deep), rest) = self.inner_expr(rest)?;
        let (_close, rest) = sign(rest, Mark::CloseParen)?;
        let e = greatest(self.alloc, token.span.from, first, other)?;
        Ok(((e, depth.max(deep)), rest))
    }

    /// An operand without a sign.
    #[tactic(auto, unfolding(crate::specs::Reading::prim_at))]
    fn prim<'a>(&self, tokens: &'a [Token]) -> Read<'a, (Boxed<Expr>, u8)>
        requires { ReadsUn self.now.text self.now.fuel (F.pre self.now.un) (F.post self.now.un) }
        ensures { Gives (λ x. (x.0, x.1.now)) result (reading.prim_at (reading.whole_at self.now.text.now self.now.fuel) self.now.text.now tokens.now) }
    {
        if starts(tokens, &[TokenKind::Reserved(Word::True)]) {
            boolean(self.alloc, tokens, Word::True, true)
        } else if starts(tokens, &[TokenKind::Reserved(Word::False)]) {
            boolean(self.alloc, tokens, Word::False, false)
        } else if starts(tokens, &[TokenKind::Number]) {
            number(self.alloc, self.text, tokens)
        } else if starts(tokens, &[TokenKind::Sign(Mark::Dot), TokenKind::Id]) {
            named(self.alloc, self.text, tokens)
        } else if starts(tokens, &[TokenKind::Sign(Mark::Question)]) {
            received(self.alloc, tokens)
        } else if starts(tokens, &[TokenKind::Sign(Mark::OpenParen)]) {
            self.paren(tokens)
        } else if starts(tokens, &[TokenKind::Reserved(Word::Abs)]) {
            self.absolute(tokens)
        } else if starts(tokens, &[TokenKind::Reserved(Word::Min)]) {
            self.least(tokens)
        } else if starts(tokens, &[TokenKind::Reserved(Word::Max)]) {
            self.greatest(tokens)
        } else {
            self.choice(tokens)
        }
    }

    #[tactic(auto, unfolding(crate::specs::Reading::signed_at))]
    fn after_minus<'a>(&self, tokens: &'a [Token]) -> Read<'a, (Boxed<Expr>, u8)>
        requires { ReadsUn self.now.text self.now.fuel (F.pre self.now.un) (F.post self.now.un) }
        ensures { Gives (λ x. (x.0, x.1.now)) result (reading.signed_at (reader.inside 100 (reading.un_at self.now.text.now self.now.fuel)) (marked m.Minus) tree.negative tokens.now) }
    {
        let (token, rest) = sign(tokens, Mark::Minus)?;
        let ((inner, depth), rest) = self.inner_operand(rest)?;
        Ok(((negative(self.alloc, token.span.from, inner)?, depth), rest))
    }

    #[tactic(auto, unfolding(crate::specs::Reading::signed_at))]
    fn after_plus<'a>(&self, tokens: &'a [Token]) -> Read<'a, (Boxed<Expr>, u8)>
        requires { ReadsUn self.now.text self.now.fuel (F.pre self.now.un) (F.post self.now.un) }
        ensures { Gives (λ x. (x.0, x.1.now)) result (reading.signed_at (reader.inside 100 (reading.un_at self.now.text.now self.now.fuel)) (marked m.Plus) tree.positive tokens.now) }
    {
        let (token, rest) = sign(tokens, Mark::Plus)?;
        let ((inner, depth), rest) = self.inner_operand(rest)?;
        Ok(((positive(self.alloc, token.span.from, inner)?, depth), rest))
    }

    #[tactic(auto, unfolding(crate::specs::Reading::signed_at))]
    fn after_not<'a>(&self, tokens: &'a [Token]) -> Read<'a, (Boxed<Expr>, u8)>
        requires { ReadsUn self.now.text self.now.fuel (F.pre self.now.un) (F.post self.now.un) }
        ensures { Gives (λ x. (x.0, x.1.now)) result (reading.signed_at (reader.inside 100 (reading.un_at self.now.text.now self.now.fuel)) (reserved w.Not) tree.negation tokens.now) }
    {
        let (token, rest) = word(tokens, Word::Not)?;
        let ((inner, depth), rest) = self.inner_operand(rest)?;
        Ok(((negation(self.alloc, token.span.from, inner)?, depth), rest))
    }

    /// An operand with a sign or without.
    #[tactic(auto, unfolding(crate::specs::Reading::un_from))]
    pub fn step<'a>(&self, tokens: &'a [Token]) -> Read<'a, (Boxed<Expr>, u8)>
        requires { ReadsUn self.now.text self.now.fuel (F.pre self.now.un) (F.post self.now.un) }
        ensures { Gives (λ x. (x.0, x.1.now)) result (reading.un_from (reading.whole_at self.now.text.now self.now.fuel) self.now.text.now (reader.inside 100 (reading.un_at self.now.text.now self.now.fuel)) tokens.now) }
    {
        if starts(tokens, &[TokenKind::Sign(Mark::Minus)]) {
            self.after_minus(tokens)
        } else if starts(tokens, &[TokenKind::Sign(Mark::Plus)]) {
            self.after_plus(tokens)
        } else if starts(tokens, &[TokenKind::Reserved(Word::Not)]) {
            self.after_not(tokens)
        } else {
            self.prim(tokens)
        }
    }
}

/// An operand with a sign or without, where so many forms may nest.
#[tactic(auto, unfolding(crate::specs::Reading::un_at))]
pub fn un<'a>(
    alloc: Global,
    text: &[u8],
    tokens: &'a [Token],
    fuel: u8,
) -> Result<((Boxed<Expr>, u8), &'a [Token]), ReadError>
    ensures { Gives (λ x. (x.0, x.1.now)) result (reading.un_at text.now fuel tokens.now) }
{
    if fuel == 0 {
        return Err(ReadError::TooDeep);
    }
    let fuel = fuel - 1;
    Grammar {
        alloc,
        text,
        fuel,
        un,
    }
    .step(tokens)
}
