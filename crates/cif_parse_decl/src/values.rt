//! Names that are declared with a type or a value.

ghost use Rattle.std.specs.Prelude.{◌≡◌, IfOk};
ghost use Rattle.cif_ast.specs.declared.declarations.Decl.TheVariants as decl;
ghost use Rattle.cif_parse_expr.specs.Gives.{Gives};
ghost use Rattle.cif_parse_decl.specs.Reading as reading;

use crate::types::{type_again, type_use};
use cif_ast::{Decl, Expr, Ident, TypeUse};
use cif_base::{Boxed, Memory};
use cif_lex::{Mark, Token, TokenKind};
use cif_parse_expr::{Part, Read, expr, ident, inside, sign, starts};
use std::alloc::Global;

/// `=` and an expression.
#[tactic(auto, unfolding(crate::specs::Reading::value_at))]
fn value<'a>(alloc: Global, text: &[u8], tokens: &'a [Token]) -> Read<'a, Boxed<Expr>>
    ensures { Gives (λ x. (x.0, x.1.now)) result (reading.value_at text.now tokens.now) }
{
    let (_is, rest) = sign(tokens, Mark::Equal)?;
    expr(alloc, text, rest)
}

/// A name, and its value where it has one.
#[tactic(auto, unfolding(crate::specs::Reading::perhaps_valued_at))]
fn perhaps_valued<'a>(
    alloc: Global,
    text: &[u8],
    tokens: &'a [Token],
) -> Read<'a, (Ident, Option<Boxed<Expr>>)>
    ensures { Gives (λ x. (x.0, x.1.now)) result (reading.perhaps_valued_at text.now tokens.now) }
{
    let (name, rest) = ident(alloc, text, tokens)?;
    if !starts(rest, &[TokenKind::Sign(Mark::Equal)]) {
        return Ok(((name, None), rest));
    }
    let (value, rest) = value(alloc, text, rest)?;
    Ok(((name, Some(value)), rest))
}

fn algebraic_of(
    alloc: Global,
    ty: Boxed<TypeUse>,
    name: Ident,
    value: Option<Boxed<Expr>>,
) -> Result<Boxed<Decl>, Memory>
    ensures { IfOk result (λ d. d ≡ decl.Alg ty name value) }
{
    let ty = ty.into_inner();
    let value = inside(value);
    Boxed::new(alloc, Decl::Alg { ty, name, value })
}

fn discrete_of(
    alloc: Global,
    ty: Boxed<TypeUse>,
    name: Ident,
    value: Option<Boxed<Expr>>,
) -> Result<Boxed<Decl>, Memory>
    ensures { IfOk result (λ d. d ≡ decl.Disc ty name value) }
{
    let ty = ty.into_inner();
    let value = inside(value);
    Boxed::new(alloc, Decl::Disc { ty, name, value })
}

/// The name of a type and what it stands for.
#[derive(Drop)]
pub struct NamedType;

impl Part for NamedType {
    type Tree = Boxed<Decl>;

    ghost use Rattle.cif_parse_decl.specs.Reading as reading;

    ghost tree_at = { λ s. reading.named_type_at };

    #[tactic(auto, unfolding(crate::specs::Reading::named_type_at))]
    fn read<'a>(&self, alloc: Global, text: &[u8], tokens: &'a [Token]) -> Read<'a, Boxed<Decl>> {
        let (name, rest) = ident(alloc, text, tokens)?;
        let (_is, rest) = sign(rest, Mark::Equal)?;
        let (ty, rest) = type_use(alloc, text, rest)?;
        let ty = ty.into_inner();
        let found = Boxed::new(alloc, Decl::TypeName { name, ty })?;
        Ok((found, rest))
    }
}

/// A constant of a type.
#[derive(Drop)]
pub struct Constant<'t> {
    pub ty: &'t TypeUse,
}

impl<'t> Part for Constant<'t> {
    type Tree = Boxed<Decl>;

    ghost use Rattle.cif_parse_decl.specs.Reading as reading;

    ghost tree_at = { λ s text. reading.constant_at text s.ty.now };

    #[tactic(auto, unfolding(crate::specs::Reading::constant_at, crate::specs::Reading::valued_at))]
    fn read<'a>(&self, alloc: Global, text: &[u8], tokens: &'a [Token]) -> Read<'a, Boxed<Decl>> {
        let (name, rest) = ident(alloc, text, tokens)?;
        let (_is, rest) = sign(rest, Mark::Equal)?;
        let (value, rest) = expr(alloc, text, rest)?;
        let ty = type_again(alloc, self.ty)?.into_inner();
        let value = value.into_inner();
        let found = Boxed::new(alloc, Decl::Const { ty, name, value })?;
        Ok((found, rest))
    }
}

/// An algebraic variable of a type.
#[derive(Drop)]
pub struct Algebraic<'t> {
    pub ty: &'t TypeUse,
}

impl<'t> Part for Algebraic<'t> {
    type Tree = Boxed<Decl>;

    ghost use Rattle.cif_parse_decl.specs.Reading as reading;

    ghost tree_at = { λ s text. reading.algebraic_at text s.ty.now };

    #[tactic(auto, unfolding(crate::specs::Reading::algebraic_at))]
    fn read<'a>(&self, alloc: Global, text: &[u8], tokens: &'a [Token]) -> Read<'a, Boxed<Decl>> {
        let ((name, value), rest) = perhaps_valued(alloc, text, tokens)?;
        let ty = type_again(alloc, self.ty)?;
        Ok((algebraic_of(alloc, ty, name, value)?, rest))
    }
}

/// A discrete variable of a type.
#[derive(Drop)]
pub struct Discrete<'t> {
    pub ty: &'t TypeUse,
}

impl<'t> Part for Discrete<'t> {
    type Tree = Boxed<Decl>;

    ghost use Rattle.cif_parse_decl.specs.Reading as reading;

    ghost tree_at = { λ s text. reading.discrete_at text s.ty.now };

    #[tactic(auto, unfolding(crate::specs::Reading::discrete_at))]
    fn read<'a>(&self, alloc: Global, text: &[u8], tokens: &'a [Token]) -> Read<'a, Boxed<Decl>> {
        let ((name, value), rest) = perhaps_valued(alloc, text, tokens)?;
        let ty = type_again(alloc, self.ty)?;
        Ok((discrete_of(alloc, ty, name, value)?, rest))
    }
}

/// An input variable of a type.
#[derive(Drop)]
pub struct Input<'t> {
    pub ty: &'t TypeUse,
}

impl<'t> Part for Input<'t> {
    type Tree = Boxed<Decl>;

    ghost use Rattle.cif_parse_decl.specs.Reading as reading;
    ghost use Rattle.cif_parse_decl.specs.Trees as tree;

    ghost tree_at = { λ s text. reading.made_at text (tree.input s.ty.now) };

    #[tactic(auto, unfolding(crate::specs::Reading::made_at))]
    fn read<'a>(&self, alloc: Global, text: &[u8], tokens: &'a [Token]) -> Read<'a, Boxed<Decl>> {
        let (name, rest) = ident(alloc, text, tokens)?;
        let ty = type_again(alloc, self.ty)?.into_inner();
        let found = Boxed::new(alloc, Decl::Input { ty, name })?;
        Ok((found, rest))
    }
}

/// A marking predicate.
#[derive(Drop)]
pub struct Marking;

impl Part for Marking {
    type Tree = Boxed<Decl>;

    ghost use Rattle.cif_parse_decl.specs.Reading as reading;

    ghost tree_at = { λ s. reading.marking_at };

    #[tactic(auto, unfolding(crate::specs::Reading::marking_at))]
    fn read<'a>(&self, alloc: Global, text: &[u8], tokens: &'a [Token]) -> Read<'a, Boxed<Decl>> {
        let (p, rest) = expr(alloc, text, tokens)?;
        let found = Boxed::new(alloc, Decl::Marked(p.into_inner()))?;
        Ok((found, rest))
    }
}
