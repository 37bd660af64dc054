//! Identifiers and names, and lists of them.

ghost use Rattle.std.specs.Prelude.{◌≡◌, option_copied};
ghost use Rattle.cif_parse_expr.specs.Gives.{Gives};
ghost use Rattle.cif_parse_expr.specs.Parts as parts;
ghost use Rattle.cif_parse_expr.specs.Reading as reading;
ghost use Rattle.cif_parse_expr.specs.Trees as tree;

use crate::parts::{Part, separated};
use crate::spelling::spelling;
use crate::tokens::{Read, kind, sign, starts};
use cif_ast::{Ident, Name};
use cif_base::{Items, Text};
use cif_lex::{Mark, Token, TokenKind};
use std::alloc::Global;

/// An identifier.
#[tactic(auto, unfolding(crate::specs::Reading::ident_at))]
pub fn ident<'a>(alloc: Global, text: &[u8], tokens: &'a [Token]) -> Read<'a, Ident>
    ensures { Gives (λ x. (x.0, x.1.now)) result (reading.ident_at text.now tokens.now) }
{
    let (token, rest) = kind(tokens, TokenKind::Id)?;
    let at = token.span.from;
    let text = Text::from_slice(alloc, spelling(text, token))?;
    Ok((Ident { text, at }, rest))
}

/// An identifier, as a part.
pub struct IdentPart;

impl Part for IdentPart {
    type Tree = Ident;

    ghost use Rattle.cif_parse_expr.specs.Reading as reading;

    ghost tree_at = { λ s. reading.ident_at };

    fn read<'a>(&self, alloc: Global, text: &[u8], tokens: &'a [Token]) -> Read<'a, Ident> {
        ident(alloc, text, tokens)
    }
}

/// The dot at the front, where there is one.
#[tactic(auto, unfolding(crate::specs::Reading::dot_at))]
fn dot(tokens: &[Token]) -> Read<'_, Option<&Token>>
    ensures { Gives (λ x. (option_copied x.0, x.1.now)) result (reading.dot_at tokens.now) }
{
    if !starts(tokens, &[TokenKind::Sign(Mark::Dot)]) {
        return Ok((None, tokens));
    }
    let (dot, rest) = sign(tokens, Mark::Dot)?;
    Ok((Some(dot), rest))
}

/// Where a name begins.
fn place(dot: Option<&Token>, parts: &[Ident]) -> u32
    ensures { result ≡ tree.name_place (option_copied dot.entry) parts.now }
{
    match (dot, parts) {
        (Some(dot), _) => dot.span.from,
        (None, [first, ..]) => first.at,
        (None, []) => 0,
    }
}

fn is_from_root(dot: Option<&Token>) -> bool
    ensures { result ≡ tree.from_root (option_copied dot.entry) }
{
    dot.is_some()
}

/// A name: identifiers with dots between them, and a dot before them where it is looked up from the specification.
#[tactic(auto, unfolding(crate::specs::Reading::name_at))]
pub fn name<'a>(alloc: Global, text: &[u8], tokens: &'a [Token]) -> Read<'a, Name>
    ensures { Gives (λ x. (x.0, x.1.now)) result (reading.name_at text.now tokens.now) }
{
    let (dot, rest) = dot(tokens)?;
    let (parts, rest) = separated(&IdentPart, alloc, text, Mark::Dot, rest)?;
    let at = place(dot, parts.as_slice());
    let from_root = is_from_root(dot);
    Ok((
        Name {
            from_root,
            parts,
            at,
        },
        rest,
    ))
}

/// A name, as a part.
pub struct NamePart;

impl Part for NamePart {
    type Tree = Name;

    ghost use Rattle.cif_parse_expr.specs.Reading as reading;

    ghost tree_at = { λ s. reading.name_at };

    fn read<'a>(&self, alloc: Global, text: &[u8], tokens: &'a [Token]) -> Read<'a, Name> {
        name(alloc, text, tokens)
    }
}

/// Identifiers with commas between them.
#[tactic(auto, unfolding(crate::specs::Parts::ids_at))]
pub fn ids<'a>(alloc: Global, text: &[u8], tokens: &'a [Token]) -> Read<'a, Items<Ident>>
    ensures { Gives (λ x. (x.0, x.1.now)) result (parts.ids_at text.now tokens.now) }
{
    separated(&IdentPart, alloc, text, Mark::Comma, tokens)
}

/// Names with commas between them.
#[tactic(auto, unfolding(crate::specs::Parts::names_at))]
pub fn names<'a>(alloc: Global, text: &[u8], tokens: &'a [Token]) -> Read<'a, Items<Name>>
    ensures { Gives (λ x. (x.0, x.1.now)) result (parts.names_at text.now tokens.now) }
{
    separated(&NamePart, alloc, text, Mark::Comma, tokens)
}

/// Names with commas between them, as a part.
pub struct NamesPart;

impl Part for NamesPart {
    type Tree = Items<Name>;

    ghost use Rattle.cif_parse_expr.specs.Parts as parts;

    ghost tree_at = { λ s. parts.names_at };

    fn read<'a>(&self, alloc: Global, text: &[u8], tokens: &'a [Token]) -> Read<'a, Items<Name>> {
        names(alloc, text, tokens)
    }
}
