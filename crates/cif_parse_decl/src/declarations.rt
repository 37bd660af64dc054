//! Declarations, each as the list of what it declares.

ghost use Rattle.std.specs.Prelude.{◌≡◌};
ghost use Rattle.cif_parse_expr.specs.Gives.{Gives};
ghost use Rattle.cif_parse_decl.specs.Reading as reading;

use crate::events::events;
use crate::invariants::{invariants, kind_invariants};
use crate::sight::begins_declaration;
use crate::types::type_use;
use crate::values::{Algebraic, Constant, Discrete, Input, Marking, NamedType};
use cif_ast::Decl;
use cif_base::Items;
use cif_lex::{Mark, Token, TokenKind, Word};
use cif_parse_expr::{Read, expr, ident, ids, separated_boxes, sign, starts, word};
use std::alloc::Global;

#[tactic(auto, unfolding(crate::specs::Reading::type_declaration_at))]
fn type_declaration<'a>(alloc: Global, text: &[u8], tokens: &'a [Token]) -> Read<'a, Items<Decl>>
    ensures { Gives (λ x. (x.0, x.1.now)) result (reading.type_declaration_at text.now tokens.now) }
{
    let (_type, rest) = word(tokens, Word::Type)?;
    let (found, rest) = separated_boxes(&NamedType, alloc, text, Mark::Comma, rest)?;
    let (_end, rest) = sign(rest, Mark::Semicolon)?;
    Ok((found, rest))
}

#[tactic(auto, unfolding(crate::specs::Reading::enum_declaration_at))]
fn enum_declaration<'a>(alloc: Global, text: &[u8], tokens: &'a [Token]) -> Read<'a, Items<Decl>>
    ensures { Gives (λ x. (x.0, x.1.now)) result (reading.enum_declaration_at text.now tokens.now) }
{
    let (_enum, rest) = word(tokens, Word::Enum)?;
    let (name, rest) = ident(alloc, text, rest)?;
    let (_is, rest) = sign(rest, Mark::Equal)?;
    let (literals, rest) = ids(alloc, text, rest)?;
    let (_end, rest) = sign(rest, Mark::Semicolon)?;
    let mut all = Items::new(alloc);
    all.push(Decl::Enum { name, literals })?;
    Ok((all, rest))
}

#[tactic(auto, unfolding(crate::specs::Reading::event_declaration_at))]
fn event_declaration<'a>(alloc: Global, text: &[u8], tokens: &'a [Token]) -> Read<'a, Items<Decl>>
    ensures { Gives (λ x. (x.0, x.1.now)) result (reading.event_declaration_at text.now tokens.now) }
{
    let (found, rest) = events(alloc, text, tokens)?;
    let (_end, rest) = sign(rest, Mark::Semicolon)?;
    Ok((found, rest))
}

#[tactic(auto, unfolding(crate::specs::Reading::const_declaration_at, crate::specs::Reading::typed_at))]
fn const_declaration<'a>(alloc: Global, text: &[u8], tokens: &'a [Token]) -> Read<'a, Items<Decl>>
    ensures { Gives (λ x. (x.0, x.1.now)) result (reading.const_declaration_at text.now tokens.now) }
{
    let (_const, rest) = word(tokens, Word::Const)?;
    let (ty, rest) = type_use(alloc, text, rest)?;
    let (found, rest) = separated_boxes(
        &Constant { ty: ty.get() },
        alloc,
        text,
        Mark::Comma,
        rest,
    )?;
    let (_end, rest) = sign(rest, Mark::Semicolon)?;
    Ok((found, rest))
}

#[tactic(auto, unfolding(crate::specs::Reading::alg_declaration_at, crate::specs::Reading::typed_at))]
fn alg_declaration<'a>(alloc: Global, text: &[u8], tokens: &'a [Token]) -> Read<'a, Items<Decl>>
    ensures { Gives (λ x. (x.0, x.1.now)) result (reading.alg_declaration_at text.now tokens.now) }
{
    let (_alg, rest) = word(tokens, Word::Alg)?;
    let (ty, rest) = type_use(alloc, text, rest)?;
    let (found, rest) = separated_boxes(
        &Algebraic { ty: ty.get() },
        alloc,
        text,
        Mark::Comma,
        rest,
    )?;
    let (_end, rest) = sign(rest, Mark::Semicolon)?;
    Ok((found, rest))
}

#[tactic(auto, unfolding(crate::specs::Reading::input_declaration_at, crate::specs::Reading::typed_at))]
fn input_declaration<'a>(alloc: Global, text: &[u8], tokens: &'a [Token]) -> Read<'a, Items<Decl>>
    ensures { Gives (λ x. (x.0, x.1.now)) result (reading.input_declaration_at text.now tokens.now) }
{
    let (_input, rest) = word(tokens, Word::Input)?;
    let (ty, rest) = type_use(alloc, text, rest)?;
    let (found, rest) = separated_boxes(&Input { ty: ty.get() }, alloc, text, Mark::Comma, rest)?;
    let (_end, rest) = sign(rest, Mark::Semicolon)?;
    Ok((found, rest))
}

/// A declaration of discrete variables, which stands in automata alone.
#[tactic(auto, unfolding(crate::specs::Reading::disc_declaration_at, crate::specs::Reading::typed_at))]
pub fn disc_declaration<'a>(
    alloc: Global,
    text: &[u8],
    tokens: &'a [Token],
) -> Read<'a, Items<Decl>>
    ensures { Gives (λ x. (x.0, x.1.now)) result (reading.disc_declaration_at text.now tokens.now) }
{
    let (_disc, rest) = word(tokens, Word::Disc)?;
    let (ty, rest) = type_use(alloc, text, rest)?;
    let (found, rest) = separated_boxes(
        &Discrete { ty: ty.get() },
        alloc,
        text,
        Mark::Comma,
        rest,
    )?;
    let (_end, rest) = sign(rest, Mark::Semicolon)?;
    Ok((found, rest))
}

#[tactic(auto, unfolding(crate::specs::Reading::equation_at))]
fn equation<'a>(alloc: Global, text: &[u8], tokens: &'a [Token]) -> Read<'a, Items<Decl>>
    ensures { Gives (λ x. (x.0, x.1.now)) result (reading.equation_at text.now tokens.now) }
{
    let (_equation, rest) = word(tokens, Word::Equation)?;
    let (name, rest) = ident(alloc, text, rest)?;
    let (_is, rest) = sign(rest, Mark::Equal)?;
    let (value, rest) = expr(alloc, text, rest)?;
    let (_end, rest) = sign(rest, Mark::Semicolon)?;
    let mut all = Items::new(alloc);
    let value = value.into_inner();
    all.push(Decl::Equation { name, value })?;
    Ok((all, rest))
}

#[tactic(auto, unfolding(crate::specs::Reading::marked_declaration_at))]
fn marked_declaration<'a>(alloc: Global, text: &[u8], tokens: &'a [Token]) -> Read<'a, Items<Decl>>
    ensures { Gives (λ x. (x.0, x.1.now)) result (reading.marked_declaration_at text.now tokens.now) }
{
    let (_marked, rest) = word(tokens, Word::Marked)?;
    let (found, rest) = separated_boxes(&Marking, alloc, text, Mark::Comma, rest)?;
    let (_end, rest) = sign(rest, Mark::Semicolon)?;
    Ok((found, rest))
}

/// A declaration that may stand in every component, but for one that begins with a kind.
#[tactic(auto, unfolding(crate::specs::Reading::plain_declaration_at))]
pub fn plain_declaration<'a>(
    alloc: Global,
    text: &[u8],
    tokens: &'a [Token],
) -> Read<'a, Items<Decl>>
    ensures { Gives (λ x. (x.0, x.1.now)) result (reading.plain_declaration_at text.now tokens.now) }
{
    if starts(tokens, &[TokenKind::Reserved(Word::Type)]) {
        type_declaration(alloc, text, tokens)
    } else if starts(tokens, &[TokenKind::Reserved(Word::Enum)]) {
        enum_declaration(alloc, text, tokens)
    } else if starts(
        tokens,
        &[
            TokenKind::Reserved(Word::Event),
            TokenKind::Reserved(Word::Controllable),
            TokenKind::Reserved(Word::Uncontrollable),
        ],
    ) {
        event_declaration(alloc, text, tokens)
    } else if starts(tokens, &[TokenKind::Reserved(Word::Const)]) {
        const_declaration(alloc, text, tokens)
    } else if starts(tokens, &[TokenKind::Reserved(Word::Alg)]) {
        alg_declaration(alloc, text, tokens)
    } else if starts(tokens, &[TokenKind::Reserved(Word::Input)]) {
        input_declaration(alloc, text, tokens)
    } else if starts(tokens, &[TokenKind::Reserved(Word::Equation)]) {
        equation(alloc, text, tokens)
    } else if starts(tokens, &[TokenKind::Reserved(Word::Invariant)]) {
        invariants(alloc, text, tokens)
    } else {
        marked_declaration(alloc, text, tokens)
    }
}

/// A declaration that may stand in every component.
#[tactic(auto, unfolding(crate::specs::Reading::declaration_at))]
pub fn declaration<'a>(alloc: Global, text: &[u8], tokens: &'a [Token]) -> Read<'a, Items<Decl>>
    ensures { Gives (λ x. (x.0, x.1.now)) result (reading.declaration_at text.now tokens.now) }
{
    if begins_declaration(tokens) {
        plain_declaration(alloc, text, tokens)
    } else {
        kind_invariants(alloc, text, tokens)
    }
}
