//! Whole expressions, and lists of them.

ghost use Rattle.std.specs.Prelude.{◌≡◌};
ghost use Rattle.cif_parse_expr.specs.Gives.{Gives};
ghost use Rattle.cif_parse_expr.specs.Parts as parts;
ghost use Rattle.cif_parse_expr.specs.Reading as reading;

use crate::error::ReadError;
use crate::levels::{Grammar, MAX_DEPTH};
use crate::operands::un;
use crate::parts::{Part, separated_boxes};
use crate::tokens::Read;
use cif_ast::Expr;
use cif_base::{Boxed, Items};
use cif_lex::{Mark, Token};
use std::alloc::Global;

/// An expression at the front, of depth at most 100. Where it is deeper, its first token is told.
#[tactic(auto, unfolding(crate::specs::Reading::expr_at))]
pub fn expr<'a>(alloc: Global, text: &[u8], tokens: &'a [Token]) -> Read<'a, Boxed<Expr>>
    ensures { Gives (λ x. (x.0, x.1.now)) result (reading.expr_at text.now tokens.now) }
{
    let fuel = MAX_DEPTH + 1;
    match (Grammar {
        alloc,
        text,
        fuel,
        un,
    })
    .expr(tokens)
    {
        Ok(((e, _), rest)) => Ok((e, rest)),
        Err(ReadError::TooDeep) => Err(ReadError::NotRead(tokens.len())),
        Err(error) => Err(error),
    }
}

/// An expression, as a part.
pub struct ExprPart;

impl Part for ExprPart {
    type Tree = Boxed<Expr>;

    ghost use Rattle.cif_parse_expr.specs.Reading as reading;

    ghost tree_at = { λ s. reading.expr_at };

    fn read<'a>(&self, alloc: Global, text: &[u8], tokens: &'a [Token]) -> Read<'a, Boxed<Expr>> {
        expr(alloc, text, tokens)
    }
}

/// Expressions with commas between them, each of depth at most 100.
#[tactic(auto, unfolding(crate::specs::Parts::expr_list_at))]
pub fn expr_list<'a>(alloc: Global, text: &[u8], tokens: &'a [Token]) -> Read<'a, Items<Expr>>
    ensures { Gives (λ x. (x.0, x.1.now)) result (parts.expr_list_at text.now tokens.now) }
{
    separated_boxes(&ExprPart, alloc, text, Mark::Comma, tokens)
}

/// Expressions with commas between them, as a part.
pub struct ExprListPart;

impl Part for ExprListPart {
    type Tree = Items<Expr>;

    ghost use Rattle.cif_parse_expr.specs.Parts as parts;

    ghost tree_at = { λ s. parts.expr_list_at };

    fn read<'a>(&self, alloc: Global, text: &[u8], tokens: &'a [Token]) -> Read<'a, Items<Expr>> {
        expr_list(alloc, text, tokens)
    }
}
