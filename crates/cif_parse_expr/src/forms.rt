//! The trees of the forms of expressions, from their parts.

ghost use Rattle.std.specs.Prelude.{◌≡◌, ◌∷◌, IfOk};
ghost use Rattle.cif_ast.specs.declared.expressions.Form.TheVariants as f;
ghost use Rattle.cif_parse_expr.specs.Trees as tree;

use crate::parts::fitted;
use crate::tokens::code;
use cif_ast::{Branch, CmpOp, Expr, Factor, Form, MulOp, Term};
use cif_base::{Boxed, Items, Memory};
use cif_lex::{Mark, Token, TokenKind, Word};
use std::alloc::Global;

// ---- operators

pub fn mul_op(kind: TokenKind) -> MulOp
    ensures { result ≡ tree.mul_op kind }
{
    if code(kind) == code(TokenKind::Reserved(Word::Div)) {
        MulOp::Div
    } else if code(kind) == code(TokenKind::Reserved(Word::Mod)) {
        MulOp::Mod
    } else {
        MulOp::Times
    }
}

pub fn is_minus(kind: TokenKind) -> bool
    ensures { result ≡ tree.is_minus kind }
{
    code(kind) == code(TokenKind::Sign(Mark::Minus))
}

fn cmp_op(kind: TokenKind) -> CmpOp
    ensures { result ≡ tree.cmp_op kind }
{
    if code(kind) == code(TokenKind::Sign(Mark::Equal)) {
        CmpOp::Eq
    } else if code(kind) == code(TokenKind::Sign(Mark::NotEqual)) {
        CmpOp::Ne
    } else if code(kind) == code(TokenKind::Sign(Mark::Less)) {
        CmpOp::Lt
    } else if code(kind) == code(TokenKind::Sign(Mark::LessEqual)) {
        CmpOp::Le
    } else if code(kind) == code(TokenKind::Sign(Mark::Greater)) {
        CmpOp::Gt
    } else {
        CmpOp::Ge
    }
}

// ---- operators between operands

#[tactic(auto, unfolding(crate::specs::Trees::place))]
fn place(e: &Expr) -> u32
    ensures { result ≡ tree.place e.now }
{
    e.at
}

/// A form with its place, in a box: a tree is handed on in one until it has its place, since a `Result` with all forms of an
/// expression in it is slow to check.
pub fn node(alloc: Global, form: Form, at: u32) -> Result<Boxed<Expr>, Memory>
    ensures { IfOk result (λ e. e ≡ tree.node at form) }
{
    Boxed::new(alloc, Expr { form, at })
}

pub fn factor(alloc: Global, op: MulOp, value: Boxed<Expr>) -> Result<Boxed<Factor>, Memory>
    ensures { IfOk result (λ f. f ≡ tree.factor_of op value) }
{
    let value = value.into_inner();
    Boxed::new(alloc, Factor { op, value })
}

pub fn term(alloc: Global, minus: bool, value: Boxed<Expr>) -> Result<Boxed<Term>, Memory>
    ensures { IfOk result (λ t. t ≡ tree.term_of minus value) }
{
    let value = value.into_inner();
    Boxed::new(alloc, Term { minus, value })
}

pub fn product(
    alloc: Global,
    first: Boxed<Expr>,
    rest: Items<Factor>,
) -> Result<Boxed<Expr>, Memory>
    ensures { IfOk result (λ e. e ≡ tree.product first rest) }
{
    let at = place(first.get());
    let rest = fitted(rest);
    node(alloc, Form::Product { first, rest }, at)
}

pub fn sum(alloc: Global, first: Boxed<Expr>, rest: Items<Term>) -> Result<Boxed<Expr>, Memory>
    ensures { IfOk result (λ e. e ≡ tree.sum first rest) }
{
    let at = place(first.get());
    let rest = fitted(rest);
    node(alloc, Form::Sum { first, rest }, at)
}

pub fn comparison(
    alloc: Global,
    left: Boxed<Expr>,
    sign: &Token,
    right: Boxed<Expr>,
) -> Result<Boxed<Expr>, Memory>
    ensures { IfOk result (λ e. e ≡ tree.comparison left (sign.now, right)) }
{
    let at = place(left.get());
    let op = cmp_op(sign.kind);
    node(alloc, Form::Compare { left, op, right }, at)
}

fn joined(alloc: Global, first: Boxed<Expr>, rest: Items<Expr>) -> Result<Items<Expr>, Memory>
    ensures { IfOk result (λ all. all ≡ first ∷ rest) }
{
    let mut all = Items::new(alloc);
    all.push(first.into_inner())?;
    all.append(rest)?;
    Ok(fitted(all))
}

pub fn conjunction(
    alloc: Global,
    first: Boxed<Expr>,
    rest: Items<Expr>,
) -> Result<Boxed<Expr>, Memory>
    ensures { IfOk result (λ e. e ≡ tree.conjunction first rest) }
{
    let at = place(first.get());
    let all = joined(alloc, first, rest)?;
    node(alloc, Form::And(all), at)
}

pub fn disjunction(
    alloc: Global,
    first: Boxed<Expr>,
    rest: Items<Expr>,
) -> Result<Boxed<Expr>, Memory>
    ensures { IfOk result (λ e. e ≡ tree.disjunction first rest) }
{
    let at = place(first.get());
    let all = joined(alloc, first, rest)?;
    node(alloc, Form::Or(all), at)
}

pub fn implication(
    alloc: Global,
    left: Boxed<Expr>,
    sign: &Token,
    right: Boxed<Expr>,
) -> Result<Boxed<Expr>, Memory>
    ensures { IfOk result (λ e. e ≡ tree.implication left (sign.now, right)) }
{
    let at = place(left.get());
    if code(sign.kind) == code(TokenKind::Sign(Mark::Implies)) {
        node(alloc, Form::Implies(left, right), at)
    } else {
        node(alloc, Form::Iff(left, right), at)
    }
}

// ---- operands, each with the place where it begins

pub fn negative(alloc: Global, at: u32, inner: Boxed<Expr>) -> Result<Boxed<Expr>, Memory>
    ensures { IfOk result (λ e. e ≡ tree.node at (f.Neg inner)) }
{
    node(alloc, Form::Neg(inner), at)
}

pub fn positive(alloc: Global, at: u32, inner: Boxed<Expr>) -> Result<Boxed<Expr>, Memory>
    ensures { IfOk result (λ e. e ≡ tree.node at (f.Plus inner)) }
{
    node(alloc, Form::Plus(inner), at)
}

pub fn negation(alloc: Global, at: u32, inner: Boxed<Expr>) -> Result<Boxed<Expr>, Memory>
    ensures { IfOk result (λ e. e ≡ tree.node at (f.Not inner)) }
{
    node(alloc, Form::Not(inner), at)
}

pub fn paren(alloc: Global, at: u32, inner: Boxed<Expr>) -> Result<Boxed<Expr>, Memory>
    ensures { IfOk result (λ e. e ≡ tree.node at (f.Paren inner)) }
{
    node(alloc, Form::Paren(inner), at)
}

pub fn absolute(alloc: Global, at: u32, inner: Boxed<Expr>) -> Result<Boxed<Expr>, Memory>
    ensures { IfOk result (λ e. e ≡ tree.node at (f.Abs inner)) }
{
    node(alloc, Form::Abs(inner), at)
}

pub fn least(
    alloc: Global,
    at: u32,
    first: Boxed<Expr>,
    other: Boxed<Expr>,
) -> Result<Boxed<Expr>, Memory>
    ensures { IfOk result (λ e. e ≡ tree.node at (f.Min first other)) }
{
    node(alloc, Form::Min(first, other), at)
}

pub fn greatest(
    alloc: Global,
    at: u32,
    first: Boxed<Expr>,
    other: Boxed<Expr>,
) -> Result<Boxed<Expr>, Memory>
    ensures { IfOk result (λ e. e ≡ tree.node at (f.Max first other)) }
{
    node(alloc, Form::Max(first, other), at)
}

pub fn branch(
    alloc: Global,
    conds: Items<Expr>,
    value: Boxed<Expr>,
) -> Result<Boxed<Branch>, Memory>
    ensures { IfOk result (λ b. b ≡ tree.branch_of conds value) }
{
    let value = value.into_inner();
    Boxed::new(alloc, Branch { conds, value })
}

pub fn choice(
    alloc: Global,
    at: u32,
    branches: Items<Branch>,
    other: Boxed<Expr>,
) -> Result<Boxed<Expr>, Memory>
    ensures { IfOk result (λ e. e ≡ tree.node at (f.If branches other)) }
{
    node(alloc, Form::If { branches, other }, at)
}
