//! Statements. The reader of the statements one level down is a parameter, so that each rule is proved by itself. A statement that
//! is read goes behind those before it at once, and so needs no box.

ghost use Rattle.std.specs.Prelude.{map, option_map};
ghost use Rattle.st_ast.specs.Grammar as grammar;
ghost use Rattle.st_ast.specs.View.{view_stmt, view_branch};
ghost use Rattle.grammar.specs.Reader as reader;
ghost use Rattle.grammar.specs.Loops.{after};
ghost use Rattle.st_ast.specs.Grammar.{max_depth};
ghost use Rattle.st_read.specs.Gives.{Gives, onto};
ghost use Rattle.st_read.specs.Reading as reading;
ghost use Rattle.st_read.specs.ReadsStatements.{ReadsStatements};

use crate::error::Stop;
use crate::levels::MAX_DEPTH;
use crate::names::identifier;
use crate::operands::expression;
use crate::tokens::{Read, Tokens, starts, word};
use cif_base::{Boxed, Items};
use st_ast::{StBranch, StExpr, Stmt, TokenKind};
use std::alloc::Global;

/// What is left behind a statement that went to its place.
type Left<'a> = Result<Tokens<'a>, Stop>;

/// A reader of what stands between an opening word and its end.
#[derive(Clone, Copy)]
pub struct Bodies<F> {
    alloc: Global,
    /// How deep the statements there may still nest.
    depth: u16,
    statements: F,
}

#[tactic(auto, using(crate::proofs::SeenLoops::onto_read), unfolding(crate::specs::Reading::assignment_at))]
pub fn assignment<'a>(alloc: Global, tokens: Tokens<'a>, found: &mut Items<Stmt>) -> Left<'a>
    ensures { Gives (λ rest. (map view_stmt found.new, rest)) result (onto (map view_stmt found.old) (reading.assignment_at tokens.entry)) }
{
    let (target, rest) = identifier(alloc, tokens)?;
    let (_assigns, rest) = word(rest, TokenKind::Assigns)?;
    let (value, rest) = expression(alloc, rest)?;
    let (_semicolon, rest) = word(rest, TokenKind::Semicolon)?;
    let value = value.into_inner();
    found.push(Stmt::Assign { target, value })?;
    Ok(rest)
}

impl<F: Fn(Global, Tokens<'_>, u16) -> Result<(Items<Stmt>, Tokens<'_>), Stop>> Bodies<F> {
    fn body<'a>(&self, tokens: Tokens<'a>) -> Read<'a, Items<Stmt>>
        requires { ReadsStatements self.now.depth (F.pre self.now.statements) (F.post self.now.statements) }
        ensures { Gives (λ x. (map view_stmt x.0, x.1)) result (reading.statements_at self.now.depth tokens.entry) }
    {
        (self.statements)(self.alloc, tokens, self.depth)
    }

    /// A condition, the word after it and its statements.
    #[tactic(auto, unfolding(crate::specs::Reading::guarded_at))]
    fn guarded<'a>(
        &self,
        tokens: Tokens<'a>,
        closing: TokenKind,
    ) -> Read<'a, (Boxed<StExpr>, Items<Stmt>)>
        requires { ReadsStatements self.now.depth (F.pre self.now.statements) (F.post self.now.statements) }
        ensures { Gives (λ x. (view_branch (record { cond = x.0.0; body = x.0.1 }), x.1)) result (reading.guarded_at (reading.statements_at self.now.depth) closing tokens.entry) }
    {
        let (cond, rest) = expression(self.alloc, tokens)?;
        let (_closing, rest) = word(rest, closing)?;
        let (body, rest) = self.body(rest)?;
        Ok(((cond, body), rest))
    }

    #[tactic(auto, using(crate::proofs::SeenLoops::onto_read), unfolding(crate::specs::Reading::elsif_at))]
    fn elsif<'a>(&self, tokens: Tokens<'a>, found: &mut Items<StBranch>) -> Left<'a>
        requires { ReadsStatements self.now.depth (F.pre self.now.statements) (F.post self.now.statements) }
        ensures { Gives (λ rest. (map view_branch found.new, rest)) result (onto (map view_branch found.old) (reading.elsif_at (reading.statements_at self.now.depth) tokens.entry)) }
    {
        let (_elsif, rest) = word(tokens, TokenKind::Elsif)?;
        let ((cond, body), rest) = self.guarded(rest, TokenKind::Then)?;
        let cond = cond.into_inner();
        found.push(StBranch { cond, body })?;
        Ok(rest)
    }

    #[tactic(auto, using(crate::proofs::SeenLoops::onto_step, crate::proofs::SeenLoops::onto_fail, grammar::proofs::Loops::after_stop, grammar::proofs::Loops::after_end))]
    fn elsifs<'a>(
        &self,
        tokens: Tokens<'a>,
        mut found: Items<StBranch>,
    ) -> Read<'a, Items<StBranch>>
        requires { ReadsStatements self.now.depth (F.pre self.now.statements) (F.post self.now.statements) }
        ensures { Gives (λ x. (map view_branch x.0, x.1)) result (after (map view_branch found) (reading.elsifs_at (reading.statements_at self.now.depth) tokens.entry)) }
    {
        let most = tokens.len();
        let mut rest = tokens;
        for _turn in 0..most {
            if !starts(&rest, &[TokenKind::Elsif]) {
                return Ok((found, rest));
            }
            rest = self.elsif(rest, &mut found)?;
        }
        Ok((found, rest))
    }

    /// The branches after `IF`.
    #[tactic(auto, using(grammar::proofs::Loops::list_after), unfolding(crate::specs::Reading::branches_at))]
    fn branches<'a>(&self, tokens: Tokens<'a>) -> Read<'a, Items<StBranch>>
        requires { ReadsStatements self.now.depth (F.pre self.now.statements) (F.post self.now.statements) }
        ensures { Gives (λ x. (map view_branch x.0, x.1)) result (reading.branches_at (reading.statements_at self.now.depth) tokens.entry) }
    {
        let ((cond, body), rest) = self.guarded(tokens, TokenKind::Then)?;
        let cond = cond.into_inner();
        let mut found = Items::new(self.alloc);
        found.push(StBranch { cond, body })?;
        self.elsifs(rest, found)
    }

    /// `ELSE` and its statements, where they come.
    #[tactic(auto, unfolding(crate::specs::Reading::else_at))]
    fn otherwise<'a>(&self, tokens: Tokens<'a>) -> Read<'a, Option<Items<Stmt>>>
        requires { ReadsStatements self.now.depth (F.pre self.now.statements) (F.post self.now.statements) }
        ensures { Gives (λ x. (option_map (map view_stmt) x.0, x.1)) result (reading.else_at (reading.statements_at self.now.depth) tokens.entry) }
    {
        if !starts(&tokens, &[TokenKind::Else]) {
            return Ok((None, tokens));
        }
        let (_else, rest) = word(tokens, TokenKind::Else)?;
        let (body, rest) = self.body(rest)?;
        Ok((Some(body), rest))
    }

    #[tactic(auto, using(crate::proofs::SeenLoops::onto_read), unfolding(crate::specs::Reading::conditional_at))]
    fn conditional<'a>(&self, tokens: Tokens<'a>, found: &mut Items<Stmt>) -> Left<'a>
        requires { ReadsStatements self.now.depth (F.pre self.now.statements) (F.post self.now.statements) }
        ensures { Gives (λ rest. (map view_stmt found.new, rest)) result (onto (map view_stmt found.old) (reading.conditional_at (reading.statements_at self.now.depth) tokens.entry)) }
    {
        let (_if, rest) = word(tokens, TokenKind::If)?;
        let (branches, rest) = self.branches(rest)?;
        let (other, rest) = self.otherwise(rest)?;
        let (_end, rest) = word(rest, TokenKind::EndIf)?;
        let (_semicolon, rest) = word(rest, TokenKind::Semicolon)?;
        found.push(Stmt::If { branches, other })?;
        Ok(rest)
    }

    #[tactic(auto, using(crate::proofs::SeenLoops::onto_read), unfolding(crate::specs::Reading::repetition_at))]
    fn repetition<'a>(&self, tokens: Tokens<'a>, found: &mut Items<Stmt>) -> Left<'a>
        requires { ReadsStatements self.now.depth (F.pre self.now.statements) (F.post self.now.statements) }
        ensures { Gives (λ rest. (map view_stmt found.new, rest)) result (onto (map view_stmt found.old) (reading.repetition_at (reading.statements_at self.now.depth) tokens.entry)) }
    {
        let (_while, rest) = word(tokens, TokenKind::While)?;
        let ((cond, body), rest) = self.guarded(rest, TokenKind::Do)?;
        let (_end, rest) = word(rest, TokenKind::EndWhile)?;
        let (_semicolon, rest) = word(rest, TokenKind::Semicolon)?;
        let cond = cond.into_inner();
        found.push(Stmt::While { cond, body })?;
        Ok(rest)
    }

    fn step<'a>(&self, tokens: Tokens<'a>, found: &mut Items<Stmt>) -> Left<'a>
        requires { ReadsStatements self.now.depth (F.pre self.now.statements) (F.post self.now.statements) }
        ensures { Gives (λ rest. (map view_stmt found.new, rest)) result (onto (map view_stmt found.old) (reading.statement_from (reading.statements_at self.now.depth) tokens.entry)) }
    {
        if starts(&tokens, &[TokenKind::Name]) {
            assignment(self.alloc, tokens, found)
        } else if starts(&tokens, &[TokenKind::If]) {
            self.conditional(tokens, found)
        } else {
            self.repetition(tokens, found)
        }
    }
}

/// A statement, in which so many may nest.
#[cycle(nesting)]
#[tactic(auto, unfolding(crate::specs::Reading::statement_at))]
fn statement<'a>(alloc: Global, tokens: Tokens<'a>, depth: u16, found: &mut Items<Stmt>) -> Left<'a>
    ensures { Gives (λ rest. (map view_stmt found.new, rest)) result (onto (map view_stmt found.old) (reading.statement_at depth tokens.entry)) }
{
    if depth == 0 {
        return assignment(alloc, tokens, found);
    }
    let depth = depth - 1;
    let statements = statements_within;
    Bodies {
        alloc,
        depth,
        statements,
    }
    .step(tokens, found)
}

/// Statements, in each of which so many may nest.
#[cycle(nesting)]
#[tactic(auto, using(crate::proofs::SeenLoops::onto_step, crate::proofs::SeenLoops::onto_fail, grammar::proofs::Loops::after_stop, grammar::proofs::Loops::after_end, grammar::proofs::Loops::after_none))]
fn statements_within(
    alloc: Global,
    tokens: Tokens<'_>,
    depth: u16,
) -> Result<(Items<Stmt>, Tokens<'_>), Stop>
    ensures { Gives (λ x. (map view_stmt x.0, x.1)) result (reading.statements_at depth tokens.entry) }
{
    let mut found = Items::new(alloc);
    let most = tokens.len();
    let mut rest = tokens;
    for _turn in 0..most {
        if !starts(&rest, &[TokenKind::Name, TokenKind::If, TokenKind::While]) {
            return Ok((found, rest));
        }
        rest = statement(alloc, rest, depth, &mut found)?;
    }
    Ok((found, rest))
}

/// The statements of a program.
pub fn statements(alloc: Global, tokens: Tokens<'_>) -> Read<'_, Items<Stmt>>
    ensures { Gives (λ x. (map view_stmt x.0, x.1)) result (reading.statements_at max_depth tokens.entry) }
{
    statements_within(alloc, tokens, MAX_DEPTH)
}
