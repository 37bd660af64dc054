//! Updates. The reader of an update one level down is a parameter, so that each rule is proved by itself.

ghost use Rattle.std.specs.Prelude.{◌≡◌};
ghost use Rattle.cif_lex.specs.declared.token.Mark.TheVariants as m;
ghost use Rattle.cif_lex.specs.declared.token.Word.TheVariants as w;
ghost use Rattle.grammar.specs.Loops.{after};
ghost use Rattle.grammar.specs.Reader as reader;
ghost use Rattle.cif_parse_expr.specs.Gives.{Gives};
ghost use Rattle.cif_parse_expr.specs.TokenKinds as kinds;
ghost use Rattle.cif_parse_expr.specs.Reading as expressions;
ghost use Rattle.cif_parse_decl.specs.Trees.{given};
ghost use Rattle.cif_parse.specs.Reading as reading;
ghost use Rattle.cif_parse.specs.ReadsUpdate.{ReadsUpdate};

use cif_ast::{Update, UpdateBranch};
use cif_base::{Boxed, Items};
use cif_lex::{Mark, Token, TokenKind, Word};
use cif_parse_expr::{Read, ReadError, expr, expr_list, name, only, sign, starts, word};
use std::alloc::Global;

/// The greatest depth of an update.
const MAX_DEPTH: u8 = 100;

/// An assignment.
#[tactic(auto, unfolding(crate::specs::Reading::set_at))]
pub fn set<'a>(alloc: Global, text: &[u8], tokens: &'a [Token]) -> Read<'a, Boxed<Update>>
    ensures { Gives (λ x. (x.0, x.1.now)) result (reading.set_at text.now tokens.now) }
{
    let (target, rest) = name(alloc, text, tokens)?;
    let (_assign, rest) = sign(rest, Mark::Assign)?;
    let (value, rest) = expr(alloc, text, rest)?;
    let value = value.into_inner();
    let found = Boxed::new(alloc, Update::Set { target, value })?;
    Ok((found, rest))
}

/// A reader of `if` updates over one of the updates inside them.
#[derive(Clone, Copy)]
pub struct Choices<'t, F> {
    alloc: Global,
    /// The source that the tokens are of.
    text: &'t [u8],
    /// How deep the updates inside may nest.
    depth: u8,
    update: F,
}

impl<
    't,
    F: for<'a> Fn(
        Global,
        &'t [u8],
        &'a [Token],
        u8,
    ) -> Result<(Boxed<Update>, &'a [Token]), ReadError>,
> Choices<'t, F> {
    /// An update.
    fn one<'a>(&self, tokens: &'a [Token]) -> Read<'a, Boxed<Update>>
        requires { ReadsUpdate self.now.text self.now.depth (F.pre self.now.update) (F.post self.now.update) }
        ensures { Gives (λ x. (x.0, x.1.now)) result (reading.one_update_at self.now.text.now self.now.depth tokens.now) }
    {
        (self.update)(self.alloc, self.text, tokens, self.depth)
    }

    /// A comma and an update.
    #[tactic(auto, unfolding(cif_parse_expr::specs::Reading::after_sign_at))]
    fn next<'a>(&self, tokens: &'a [Token]) -> Read<'a, Boxed<Update>>
        requires { ReadsUpdate self.now.text self.now.depth (F.pre self.now.update) (F.post self.now.update) }
        ensures { Gives (λ x. (x.0, x.1.now)) result (expressions.after_sign_at m.Comma (reading.one_update_at self.now.text.now self.now.depth) tokens.now) }
    {
        let (_comma, rest) = sign(tokens, Mark::Comma)?;
        self.one(rest)
    }

    /// Updates, each after a comma, behind those that are found.
    #[tactic(auto, using(grammar::proofs::Loops::after_step, grammar::proofs::Loops::after_stop, grammar::proofs::Loops::after_fail, grammar::proofs::Loops::after_end))]
    fn more<'a>(&self, tokens: &'a [Token], mut found: Items<Update>) -> Read<'a, Items<Update>>
        requires { ReadsUpdate self.now.text self.now.depth (F.pre self.now.update) (F.post self.now.update) }
        ensures { Gives (λ x. (x.0, x.1.now)) result (after found (reader.many_at kinds.sort (expressions.first_sign m.Comma) (expressions.after_sign_at m.Comma (reading.one_update_at self.now.text.now self.now.depth)) tokens.now)) }
    {
        let mut rest = tokens;
        for _turn in 0..tokens.len() {
            if !starts(rest, &[TokenKind::Sign(Mark::Comma)]) {
                return Ok((found, rest));
            }
            let (item, left) = self.next(rest)?;
            found.push(item.into_inner())?;
            rest = left;
        }
        Ok((found, rest))
    }

    /// Updates with commas between them.
    #[tactic(auto, using(grammar::proofs::Loops::list_after), unfolding(crate::specs::Reading::updates_at, cif_parse_expr::specs::Reading::separated_at))]
    fn all<'a>(&self, tokens: &'a [Token]) -> Read<'a, Items<Update>>
        requires { ReadsUpdate self.now.text self.now.depth (F.pre self.now.update) (F.post self.now.update) }
        ensures { Gives (λ x. (x.0, x.1.now)) result (reading.updates_at self.now.text.now self.now.depth tokens.now) }
    {
        let (first, rest) = self.one(tokens)?;
        let found = only(self.alloc, first.into_inner())?;
        self.more(rest, found)
    }

    /// Conditions, a colon and updates.
    #[tactic(auto, unfolding(crate::specs::Reading::update_branch_at))]
    fn branch<'a>(&self, tokens: &'a [Token]) -> Read<'a, UpdateBranch>
        requires { ReadsUpdate self.now.text self.now.depth (F.pre self.now.update) (F.post self.now.update) }
        ensures { Gives (λ x. (x.0, x.1.now)) result (reading.update_branch_at self.now.text.now (reading.updates_at self.now.text.now self.now.depth) tokens.now) }
    {
        let (conds, rest) = expr_list(self.alloc, self.text, tokens)?;
        let (_colon, rest) = sign(rest, Mark::Colon)?;
        let (updates, rest) = self.all(rest)?;
        Ok((UpdateBranch { conds, updates }, rest))
    }

    /// `elif` and a branch.
    #[tactic(auto, unfolding(crate::specs::Reading::other_branch_at))]
    fn other_branch<'a>(&self, tokens: &'a [Token]) -> Read<'a, UpdateBranch>
        requires { ReadsUpdate self.now.text self.now.depth (F.pre self.now.update) (F.post self.now.update) }
        ensures { Gives (λ x. (x.0, x.1.now)) result (reading.other_branch_at self.now.text.now (reading.updates_at self.now.text.now self.now.depth) tokens.now) }
    {
        let (_elif, rest) = word(tokens, Word::Elif)?;
        self.branch(rest)
    }

    /// Branches after `elif`, behind those that are found.
    #[tactic(auto, using(grammar::proofs::Loops::after_step, grammar::proofs::Loops::after_stop, grammar::proofs::Loops::after_fail, grammar::proofs::Loops::after_end))]
    fn other_branches<'a>(
        &self,
        tokens: &'a [Token],
        mut found: Items<UpdateBranch>,
    ) -> Read<'a, Items<UpdateBranch>>
        requires { ReadsUpdate self.now.text self.now.depth (F.pre self.now.update) (F.post self.now.update) }
        ensures { Gives (λ x. (x.0, x.1.now)) result (after found (reader.many_at kinds.sort (expressions.first_word w.Elif) (reading.other_branch_at self.now.text.now (reading.updates_at self.now.text.now self.now.depth)) tokens.now)) }
    {
        let mut rest = tokens;
        for _turn in 0..tokens.len() {
            if !starts(rest, &[TokenKind::Reserved(Word::Elif)]) {
                return Ok((found, rest));
            }
            let (item, left) = self.other_branch(rest)?;
            found.push(item)?;
            rest = left;
        }
        Ok((found, rest))
    }

    /// The branches of an `if`.
    #[tactic(auto, using(grammar::proofs::Loops::list_after), unfolding(crate::specs::Reading::update_branches_at))]
    fn branches<'a>(&self, tokens: &'a [Token]) -> Read<'a, Items<UpdateBranch>>
        requires { ReadsUpdate self.now.text self.now.depth (F.pre self.now.update) (F.post self.now.update) }
        ensures { Gives (λ x. (x.0, x.1.now)) result (reading.update_branches_at self.now.text.now (reading.updates_at self.now.text.now self.now.depth) tokens.now) }
    {
        let (first, rest) = self.branch(tokens)?;
        let found = only(self.alloc, first)?;
        self.other_branches(rest, found)
    }

    /// `else` and updates.
    #[tactic(auto, unfolding(crate::specs::Reading::other_updates_at))]
    fn other_updates<'a>(&self, tokens: &'a [Token]) -> Read<'a, Items<Update>>
        requires { ReadsUpdate self.now.text self.now.depth (F.pre self.now.update) (F.post self.now.update) }
        ensures { Gives (λ x. (x.0, x.1.now)) result (reading.other_updates_at self.now.text.now (reading.updates_at self.now.text.now self.now.depth) tokens.now) }
    {
        let (_else, rest) = word(tokens, Word::Else)?;
        self.all(rest)
    }

    /// The updates after `else`, none where it doesn't come.
    fn otherwise<'a>(&self, tokens: &'a [Token]) -> Read<'a, Items<Update>>
        requires { ReadsUpdate self.now.text self.now.depth (F.pre self.now.update) (F.post self.now.update) }
        ensures { Gives (λ x. (x.0, x.1.now)) result (reader.map_at given (reader.optional_at kinds.sort (expressions.first_word w.Else) (reading.other_updates_at self.now.text.now (reading.updates_at self.now.text.now self.now.depth))) tokens.now) }
    {
        if !starts(tokens, &[TokenKind::Reserved(Word::Else)]) {
            return Ok((Items::new(self.alloc), tokens));
        }
        self.other_updates(tokens)
    }

    /// An `if` update.
    #[tactic(auto, unfolding(crate::specs::Reading::choice_at))]
    fn choice<'a>(&self, tokens: &'a [Token]) -> Read<'a, Boxed<Update>>
        requires { ReadsUpdate self.now.text self.now.depth (F.pre self.now.update) (F.post self.now.update) }
        ensures { Gives (λ x. (x.0, x.1.now)) result (reading.choice_at self.now.text.now (reading.updates_at self.now.text.now self.now.depth) tokens.now) }
    {
        let (_if, rest) = word(tokens, Word::If)?;
        let (branches, rest) = self.branches(rest)?;
        let (other, rest) = self.otherwise(rest)?;
        let (_end, rest) = word(rest, Word::End)?;
        let found = Boxed::new(self.alloc, Update::If { branches, other })?;
        Ok((found, rest))
    }
}

/// An update, in which `if` updates may nest so often.
#[tactic(auto, using(crate::proofs::Depths::set_read, crate::proofs::Depths::no_choice_read), unfolding(crate::specs::Reading::one_update_at, crate::specs::Reading::update_at))]
fn update<'a>(
    alloc: Global,
    text: &[u8],
    tokens: &'a [Token],
    depth: u8,
) -> Result<(Boxed<Update>, &'a [Token]), ReadError>
    ensures { Gives (λ x. (x.0, x.1.now)) result (reading.one_update_at text.now depth tokens.now) }
{
    if starts(tokens, &[TokenKind::Sign(Mark::Dot), TokenKind::Id]) {
        return set(alloc, text, tokens);
    }
    if depth == 0 {
        let (_if, _rest) = word(tokens, Word::If)?;
        return Err(ReadError::TooDeep);
    }
    Choices {
        alloc,
        text,
        depth: depth - 1,
        update,
    }
    .choice(tokens)
}

/// An update of an edge, in which `if` updates may nest so often. Where they nest more often, its first token is told.
fn outermost<'a>(
    alloc: Global,
    text: &[u8],
    tokens: &'a [Token],
    depth: u8,
) -> Result<(Boxed<Update>, &'a [Token]), ReadError>
    ensures { Gives (λ x. (x.0, x.1.now)) result (reading.one_update_at text.now depth tokens.now) }
{
    match update(alloc, text, tokens, depth) {
        Ok(found) => Ok(found),
        Err(ReadError::TooDeep) => Err(ReadError::NotRead(tokens.len())),
        Err(error) => Err(error),
    }
}

/// Updates with commas between them, each of depth at most 100.
pub fn updates<'a>(alloc: Global, text: &[u8], tokens: &'a [Token]) -> Read<'a, Items<Update>>
    ensures { Gives (λ x. (x.0, x.1.now)) result (reading.updates_at text.now 100 tokens.now) }
{
    let all = Choices {
        alloc,
        text,
        depth: MAX_DEPTH,
        update: outermost,
    };
    all.all(tokens)
}
