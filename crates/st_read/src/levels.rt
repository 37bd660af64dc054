//! Expressions, level by level of operators. The reader of operands is a parameter, so that the levels are proved by
//! themselves.

ghost use Rattle.std.specs.Prelude.{◌≡◌, true, false, map};
ghost use Rattle.grammar.specs.Reader as reader;
ghost use Rattle.st_ast.specs.Grammar.{max_depth};
ghost use Rattle.st_ast.specs.Grammar as grammar;
ghost use Rattle.st_ast.specs.View.{view_expr};
ghost use Rattle.st_read.specs.Gives.{Gives};
ghost use Rattle.st_read.specs.Operands.{operand_view};
ghost use Rattle.st_read.specs.Reading as reading;
ghost use Rattle.st_read.specs.ReadsUnary.{ReadsUnary};

use crate::error::Stop;
use crate::making::{Operand, made, pair};
use crate::tokens::{Read, Tokens, one_of, starts};
use cif_base::{Boxed, Items};
use st_ast::{StExpr, TokenKind};
use std::alloc::Global;

/// The deepest expression and the deepest statement that are read.
pub const MAX_DEPTH: u16 = 400;

/// The most operands that may stand inside one another: one more than forms do.
pub const MAX_CALLS: u16 = MAX_DEPTH + 1;

/// The levels of operators: products, sums, orders, equalities, `AND`, `XOR` and `OR`, which binds least.
pub const LEVELS: u8 = 7;

/// An expression with its depth, in a box, in which it is quick to check.
pub type Deep = (Boxed<StExpr>, u16);

/// A reader of expressions over one of operands.
#[derive(Clone, Copy)]
pub struct Levels<F> {
    pub alloc: Global,
    /// How deep operands may still nest.
    pub fuel: u16,
    pub unary: F,
}

/// The operators of a level, which are numbered from that which binds most.
fn operators(level: u8) -> &'static [TokenKind]
    ensures { result.now ≡ reading.operators level }
{
    match level {
        0 => &[TokenKind::Times, TokenKind::Slash, TokenKind::Mod],
        1 => &[TokenKind::Plus, TokenKind::Dash],
        2 => &[
            TokenKind::Less,
            TokenKind::Greater,
            TokenKind::AtMost,
            TokenKind::AtLeast,
        ],
        3 => &[TokenKind::Equals, TokenKind::Differs],
        4 => &[TokenKind::And],
        5 => &[TokenKind::Xor],
        _ => &[TokenKind::Or],
    }
}

/// The level of the operators of a kind, or the number of levels where there is none.
fn level_of(kind: TokenKind) -> u8
    ensures { result ≡ reading.lowest_of reading.levels 0 (grammar.code kind) }
{
    match kind {
        TokenKind::Times | TokenKind::Slash | TokenKind::Mod => 0,
        TokenKind::Plus | TokenKind::Dash => 1,
        TokenKind::Less | TokenKind::Greater | TokenKind::AtMost | TokenKind::AtLeast => 2,
        TokenKind::Equals | TokenKind::Differs => 3,
        TokenKind::And => 4,
        TokenKind::Xor => 5,
        TokenKind::Or => 6,
        _ => LEVELS,
    }
}

/// The level of the operator that comes next, or the number of levels where none comes.
fn next_level(tokens: &Tokens<'_>) -> u8
    ensures { result ≡ reading.next_level tokens.now }
{
    match tokens.kind() {
        Some(kind) => level_of(kind),
        None => LEVELS,
    }
}

/// Whether an operator of a level comes next.
#[tactic(auto, using(crate::proofs::Others::below_next))]
fn comes(tokens: &Tokens<'_>, level: u8) -> bool
    ensures { result ≡ reader.starts grammar.sort (reading.codes_of (reading.operators level)) tokens.now }
{
    next_level(tokens) <= level && starts(tokens, operators(level))
}

/// Whether a level has one operand after the first at the most.
fn has_pairs(level: u8) -> bool
    ensures { result ≡ reading.has_pairs level }
{
    level == 2 || level == 3
}

/// One more level of depth.
#[tactic(auto, unfolding(grammar::specs::Reader::level))]
fn deeper(e: Boxed<StExpr>, depth: u16, rest: Tokens<'_>) -> Read<'_, Deep>
    ensures { Gives (λ x. ((view_expr x.0.0, x.0.1), x.1)) result (reader.level max_depth (view_expr e) depth rest.entry) }
{
    if depth < MAX_DEPTH {
        Ok(((e, depth + 1), rest))
    } else {
        Err(Stop::NotTaken(rest.left()))
    }
}

impl<F: Fn(Global, Tokens<'_>, u16) -> Result<(Deep, Tokens<'_>), Stop>> Levels<F> {
    fn operand<'a>(&self, tokens: Tokens<'a>) -> Read<'a, Deep>
        requires { ReadsUnary self.now.fuel (F.pre self.now.unary) (F.post self.now.unary) }
        ensures { Gives (λ x. ((view_expr x.0.0, x.0.1), x.1)) result (reading.unary_at self.now.fuel tokens.entry) }
    {
        (self.unary)(self.alloc, tokens, self.fuel)
    }

    /// An operand inside a form.
    pub fn inner_operand<'a>(&self, tokens: Tokens<'a>) -> Read<'a, Deep>
        requires { ReadsUnary self.now.fuel (F.pre self.now.unary) (F.post self.now.unary) }
        ensures { Gives (λ x. ((view_expr x.0.0, x.0.1), x.1)) result (reader.inside max_depth (reading.unary_at self.now.fuel) tokens.entry) }
    {
        let ((e, depth), rest) = self.operand(tokens)?;
        deeper(e, depth, rest)
    }

    /// An operator of a level, and its operand.
    #[cycle(levels)]
    #[tactic(auto, unfolding(crate::specs::Reading::other_at))]
    fn other<'a>(
        &self,
        level: u8,
        tokens: Tokens<'a>,
    ) -> Read<'a, ((TokenKind, Boxed<StExpr>), u16)>
        requires { ReadsUnary self.now.fuel (F.pre self.now.unary) (F.post self.now.unary) }
        ensures { Gives (λ x. (((x.0.0.0, view_expr x.0.0.1), x.0.1), x.1)) result (reading.other_at level (reading.level_at level (reading.unary_at self.now.fuel)) tokens.entry) }
    {
        let (token, rest) = one_of(tokens, operators(level))?;
        let kind = token.kind();
        let ((value, depth), rest) = self.at(level, rest)?;
        let ((value, depth), rest) = deeper(value, depth, rest)?;
        Ok((((kind, value), depth), rest))
    }

    /// The operands of a level after the first, with their operators.
    #[cycle(levels)]
    #[tactic(auto, using(crate::proofs::SeenLoops::seen_deep_step, grammar::proofs::Loops::deep_stop, grammar::proofs::Loops::deep_fail, grammar::proofs::Loops::deep_end, grammar::proofs::Loops::deep_after_none), unfolding(crate::specs::Reading::others_at))]
    fn others<'a>(&self, level: u8, tokens: Tokens<'a>) -> Read<'a, (Items<Operand>, u16)>
        requires reads { ReadsUnary self.now.fuel (F.pre self.now.unary) (F.post self.now.unary) }
        requires many { reading.has_pairs level ≡ false }
        ensures { Gives (λ x. ((map operand_view x.0.0, x.0.1), x.1)) result (reading.others_at level (reading.level_at level (reading.unary_at self.now.fuel)) tokens.entry) }
    {
        let signs = operators(level);
        let most = tokens.len();
        let mut found = Items::new(self.alloc);
        let mut deep = 0;
        let mut rest = tokens;
        for _turn in 0..most {
            if !starts(&rest, signs) {
                return Ok(((found, deep), rest));
            }
            let (((kind, value), depth), left) = self.other(level, rest)?;
            let value = value.into_inner();
            found.push(Operand { kind, value })?;
            deep = deep.max(depth);
            rest = left;
        }
        Ok(((found, deep), rest))
    }

    /// A first operand of a level as one form with those after it.
    #[cycle(levels)]
    #[tactic(auto, using(crate::proofs::SeenLoops::seen_chained))]
    fn chained<'a>(&self, level: u8, operand: Deep, tokens: Tokens<'a>) -> Read<'a, Deep>
        requires reads { ReadsUnary self.now.fuel (F.pre self.now.unary) (F.post self.now.unary) }
        requires many { reading.has_pairs level ≡ false }
        ensures { Gives (λ x. ((view_expr x.0.0, x.0.1), x.1)) result (reading.form_at level (reading.level_at level (reading.unary_at self.now.fuel)) (view_expr operand.0, operand.1) tokens.entry) }
    {
        let (first, depth) = operand;
        let ((more, deep), rest) = self.others(level, tokens)?;
        if more.is_empty() {
            return Ok(((first, depth), rest));
        }
        let ((first, depth), rest) = deeper(first, depth, rest)?;
        let e = made(self.alloc, level, first, more)?;
        Ok(((e, depth.max(deep)), rest))
    }

    /// A first operand of an order or an equality as one form with that after it.
    #[cycle(levels)]
    #[tactic(auto, using(crate::proofs::Others::pair_at))]
    fn paired<'a>(&self, level: u8, operand: Deep, tokens: Tokens<'a>) -> Read<'a, Deep>
        requires reads { ReadsUnary self.now.fuel (F.pre self.now.unary) (F.post self.now.unary) }
        requires one { reading.has_pairs level ≡ true }
        requires starts { reader.starts grammar.sort (reading.codes_of (reading.operators level)) tokens ≡ true }
        ensures { Gives (λ x. ((view_expr x.0.0, x.0.1), x.1)) result (reading.form_at level (reading.level_at level (reading.unary_at self.now.fuel)) (view_expr operand.0, operand.1) tokens.entry) }
    {
        let (first, depth) = operand;
        let (((kind, other), deep), rest) = self.other(level, tokens)?;
        let ((first, depth), rest) = deeper(first, depth, rest)?;
        let e = pair(self.alloc, level, first, kind, other)?;
        Ok(((e, depth.max(deep)), rest))
    }

    /// A first operand of a level as one form with those after it, where an operator of the level comes next.
    #[cycle(levels)]
    fn after<'a>(&self, level: u8, operand: Deep, tokens: Tokens<'a>) -> Read<'a, Deep>
        requires reads { ReadsUnary self.now.fuel (F.pre self.now.unary) (F.post self.now.unary) }
        requires starts { reader.starts grammar.sort (reading.codes_of (reading.operators level)) tokens ≡ true }
        ensures { Gives (λ x. ((view_expr x.0.0, x.0.1), x.1)) result (reading.form_at level (reading.level_at level (reading.unary_at self.now.fuel)) (view_expr operand.0, operand.1) tokens.entry) }
    {
        if has_pairs(level) {
            self.paired(level, operand, tokens)
        } else {
            self.chained(level, operand, tokens)
        }
    }

    /// An expression of so many levels of operators: an operand goes up the levels, and takes those after it where an operator of the
    /// level comes next.
    #[cycle(levels)]
    #[tactic(auto, using(crate::proofs::Others::risen))]
    pub fn at<'a>(&self, levels: u8, tokens: Tokens<'a>) -> Read<'a, Deep>
        requires { ReadsUnary self.now.fuel (F.pre self.now.unary) (F.post self.now.unary) }
        ensures { Gives (λ x. ((view_expr x.0.0, x.0.1), x.1)) result (reading.level_at levels (reading.unary_at self.now.fuel) tokens.entry) }
    {
        let (mut operand, mut rest) = self.operand(tokens)?;
        for level in 0..levels {
            if levels <= next_level(&rest) {
                return Ok((operand, rest));
            }
            if comes(&rest, level) {
                let (joined, left) = self.after(level, operand, rest)?;
                operand = joined;
                rest = left;
            }
        }
        Ok((operand, rest))
    }

    /// A whole expression inside a form.
    pub fn within<'a>(&self, tokens: Tokens<'a>) -> Read<'a, Deep>
        requires { ReadsUnary self.now.fuel (F.pre self.now.unary) (F.post self.now.unary) }
        ensures { Gives (λ x. ((view_expr x.0.0, x.0.1), x.1)) result (reading.within_at self.now.fuel tokens.entry) }
    {
        let ((e, depth), rest) = self.at(LEVELS, tokens)?;
        deeper(e, depth, rest)
    }
}
