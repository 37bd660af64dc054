//! Invariants.

ghost use Rattle.std.specs.Prelude.{◌≡◌, IfOk};
ghost use Rattle.cif_lex.specs.declared.token.Word.TheVariants as word;
ghost use Rattle.cif_ast.specs.declared.declarations.Inv.TheVariants as inv;
ghost use Rattle.cif_ast.specs.declared.declarations.Decl.TheVariants as decl;
ghost use Rattle.cif_parse_expr.specs.Gives.{Gives};
ghost use Rattle.cif_parse_expr.specs.Reading as expressions;
ghost use Rattle.cif_parse_decl.specs.Reading as reading;

use crate::sight::is_labelled;
use cif_ast::{Decl, Expr, Inv, Name};
use cif_base::{Boxed, Items, Memory};
use cif_lex::{Mark, Token, TokenKind, Word};
use cif_parse_expr::{
    Part, Read, ReadError, any_of, expr, ident, name, names, separated_boxes, sign, starts, word,
};
use std::alloc::Global;

/// `plant`, `requirement` or `supervisor`.
#[tactic(auto, unfolding(crate::specs::Reading::kind_at))]
pub fn component_kind(tokens: &[Token]) -> Read<'_, &Token>
    ensures { Gives (λ x. (x.0.now, x.1.now)) result (reading.kind_at tokens.now) }
{
    any_of(
        tokens,
        &[
            TokenKind::Reserved(Word::Plant),
            TokenKind::Reserved(Word::Requirement),
            TokenKind::Reserved(Word::Supervisor),
        ],
    )
}

/// Names of events in braces.
#[tactic(auto, unfolding(crate::specs::Reading::braced_at))]
fn braced<'a>(alloc: Global, text: &[u8], tokens: &'a [Token]) -> Read<'a, Items<Name>>
    ensures { Gives (λ x. (x.0, x.1.now)) result (reading.braced_at text.now tokens.now) }
{
    let (_open, rest) = sign(tokens, Mark::OpenBrace)?;
    let (found, rest) = names(alloc, text, rest)?;
    let (_close, rest) = sign(rest, Mark::CloseBrace)?;
    Ok((found, rest))
}

/// The name of one event.
#[tactic(auto, unfolding(crate::specs::Reading::single_at))]
fn single<'a>(alloc: Global, text: &[u8], tokens: &'a [Token]) -> Read<'a, Items<Name>>
    ensures { Gives (λ x. (x.0, x.1.now)) result (reading.single_at text.now tokens.now) }
{
    let (event, rest) = name(alloc, text, tokens)?;
    let mut found = Items::new(alloc);
    found.push(event)?;
    Ok((found, rest))
}

/// The name of one event, or several in braces.
#[tactic(auto, unfolding(crate::specs::Reading::events_at))]
fn event_names<'a>(alloc: Global, text: &[u8], tokens: &'a [Token]) -> Read<'a, Items<Name>>
    ensures { Gives (λ x. (x.0, x.1.now)) result (reading.events_at text.now tokens.now) }
{
    if starts(tokens, &[TokenKind::Sign(Mark::OpenBrace)]) {
        braced(alloc, text, tokens)
    } else {
        single(alloc, text, tokens)
    }
}

/// The name of an event before `needs`, and the predicate.
#[tactic(auto, unfolding(crate::specs::Reading::needs_at))]
fn single_needs<'a>(alloc: Global, text: &[u8], tokens: &'a [Token]) -> Read<'a, Boxed<Inv>>
    ensures { Gives (λ x. (x.0, x.1.now)) result (reading.needs_at text.now (reading.single_at text.now) tokens.now) }
{
    let (events, rest) = single(alloc, text, tokens)?;
    let (_needs, rest) = word(rest, Word::Needs)?;
    let (p, rest) = expr(alloc, text, rest)?;
    let p = p.into_inner();
    let found = Boxed::new(alloc, Inv::Needs { events, p })?;
    Ok((found, rest))
}

/// Events in braces before `needs`, and the predicate.
#[tactic(auto, unfolding(crate::specs::Reading::needs_at))]
fn braced_needs<'a>(alloc: Global, text: &[u8], tokens: &'a [Token]) -> Read<'a, Boxed<Inv>>
    ensures { Gives (λ x. (x.0, x.1.now)) result (reading.needs_at text.now (reading.braced_at text.now) tokens.now) }
{
    let (events, rest) = braced(alloc, text, tokens)?;
    let (_needs, rest) = word(rest, Word::Needs)?;
    let (p, rest) = expr(alloc, text, rest)?;
    let p = p.into_inner();
    let found = Boxed::new(alloc, Inv::Needs { events, p })?;
    Ok((found, rest))
}

/// `disables` and events.
#[tactic(auto, unfolding(crate::specs::Reading::disabled_at))]
fn disabled<'a>(alloc: Global, text: &[u8], tokens: &'a [Token]) -> Read<'a, Items<Name>>
    ensures { Gives (λ x. (x.0, x.1.now)) result (reading.disabled_at text.now tokens.now) }
{
    let (_disables, rest) = word(tokens, Word::Disables)?;
    event_names(alloc, text, rest)
}

/// The invariant of the state that a predicate is.
fn state(alloc: Global, p: Boxed<Expr>) -> Result<Boxed<Inv>, Memory>
    ensures { IfOk result (λ i. i ≡ inv.State p) }
{
    Boxed::new(alloc, Inv::State(p.into_inner()))
}

/// The invariant that a predicate and the events that it disables are.
fn disables(alloc: Global, p: Boxed<Expr>, events: Items<Name>) -> Result<Boxed<Inv>, Memory>
    ensures { IfOk result (λ i. i ≡ inv.Disables p events) }
{
    let p = p.into_inner();
    Boxed::new(alloc, Inv::Disables { p, events })
}

/// The declaration that an invariant is.
fn declared(alloc: Global, found: Boxed<Inv>) -> Result<Boxed<Decl>, Memory>
    ensures { IfOk result (λ d. d ≡ decl.Inv found) }
{
    Boxed::new(alloc, Decl::Inv(found.into_inner()))
}

/// A predicate, and the events that it disables where it does.
#[tactic(auto, unfolding(crate::specs::Reading::predicate_at))]
fn predicate<'a>(alloc: Global, text: &[u8], tokens: &'a [Token]) -> Read<'a, Boxed<Inv>>
    ensures { Gives (λ x. (x.0, x.1.now)) result (reading.predicate_at text.now tokens.now) }
{
    let (p, rest) = expr(alloc, text, tokens)?;
    if !starts(rest, &[TokenKind::Reserved(Word::Disables)]) {
        return Ok((state(alloc, p)?, rest));
    }
    let (events, rest) = disabled(alloc, text, rest)?;
    Ok((disables(alloc, p, events)?, rest))
}

/// Whether the name of an event comes, and after it `needs`.
fn is_before_needs(alloc: Global, text: &[u8], tokens: &[Token]) -> Result<bool, Memory>
    ensures { IfOk result (λ b. b ≡ reading.leaves (expressions.first_word word.Needs) (expressions.name_at text.now tokens.now)) }
{
    match name(alloc, text, tokens) {
        Ok((_name, rest)) => Ok(starts(rest, &[TokenKind::Reserved(Word::Needs)])),
        Err(ReadError::Memory) => Err(Memory),
        Err(ReadError::NotRead(_)) => Ok(false),
        Err(ReadError::TooDeep) => Ok(false),
    }
}

/// An invariant without a label.
#[tactic(auto, unfolding(crate::specs::Reading::invariant_at))]
fn invariant<'a>(alloc: Global, text: &[u8], tokens: &'a [Token]) -> Read<'a, Boxed<Inv>>
    ensures { Gives (λ x. (x.0, x.1.now)) result (reading.invariant_at text.now tokens.now) }
{
    if is_before_needs(alloc, text, tokens)? {
        single_needs(alloc, text, tokens)
    } else if starts(tokens, &[TokenKind::Sign(Mark::OpenBrace)]) {
        braced_needs(alloc, text, tokens)
    } else {
        predicate(alloc, text, tokens)
    }
}

/// A label and an invariant.
#[tactic(auto, unfolding(crate::specs::Reading::labelled_at))]
fn labelled<'a>(alloc: Global, text: &[u8], tokens: &'a [Token]) -> Read<'a, Boxed<Inv>>
    ensures { Gives (λ x. (x.0, x.1.now)) result (reading.labelled_at text.now tokens.now) }
{
    let (_label, rest) = ident(alloc, text, tokens)?;
    let (_colon, rest) = sign(rest, Mark::Colon)?;
    invariant(alloc, text, rest)
}

/// An invariant, with a label or without.
#[tactic(auto, unfolding(crate::specs::Reading::named_invariant_at))]
fn named_invariant<'a>(alloc: Global, text: &[u8], tokens: &'a [Token]) -> Read<'a, Boxed<Inv>>
    ensures { Gives (λ x. (x.0, x.1.now)) result (reading.named_invariant_at text.now tokens.now) }
{
    if is_labelled(tokens) {
        labelled(alloc, text, tokens)
    } else {
        invariant(alloc, text, tokens)
    }
}

/// An invariant that may have a label, as a declaration.
struct NamedInvariantPart;

impl Part for NamedInvariantPart {
    type Tree = Boxed<Decl>;

    ghost use Rattle.cif_parse_decl.specs.Reading as reading;

    ghost tree_at = { λ s. reading.named_declared_at };

    #[tactic(auto, unfolding(crate::specs::Reading::named_declared_at))]
    fn read<'a>(&self, alloc: Global, text: &[u8], tokens: &'a [Token]) -> Read<'a, Boxed<Decl>> {
        let (found, rest) = named_invariant(alloc, text, tokens)?;
        Ok((declared(alloc, found)?, rest))
    }
}

/// An invariant without a label, as a declaration.
struct InvariantPart;

impl Part for InvariantPart {
    type Tree = Boxed<Decl>;

    ghost use Rattle.cif_parse_decl.specs.Reading as reading;

    ghost tree_at = { λ s. reading.declared_at };

    #[tactic(auto, unfolding(crate::specs::Reading::declared_at))]
    fn read<'a>(&self, alloc: Global, text: &[u8], tokens: &'a [Token]) -> Read<'a, Boxed<Decl>> {
        let (found, rest) = invariant(alloc, text, tokens)?;
        Ok((declared(alloc, found)?, rest))
    }
}

/// `invariant` and invariants.
#[tactic(auto, unfolding(crate::specs::Reading::invariants_at))]
pub fn invariants<'a>(alloc: Global, text: &[u8], tokens: &'a [Token]) -> Read<'a, Items<Decl>>
    ensures { Gives (λ x. (x.0, x.1.now)) result (reading.invariants_at text.now tokens.now) }
{
    let (_invariant, rest) = word(tokens, Word::Invariant)?;
    let (found, rest) = separated_boxes(&NamedInvariantPart, alloc, text, Mark::Comma, rest)?;
    let (_end, rest) = sign(rest, Mark::Semicolon)?;
    Ok((found, rest))
}

/// Invariants without labels.
#[tactic(auto, unfolding(crate::specs::Reading::unnamed_invariants_at))]
fn unnamed_invariants<'a>(alloc: Global, text: &[u8], tokens: &'a [Token]) -> Read<'a, Items<Decl>>
    ensures { Gives (λ x. (x.0, x.1.now)) result (reading.unnamed_invariants_at text.now tokens.now) }
{
    let (found, rest) = separated_boxes(&InvariantPart, alloc, text, Mark::Comma, tokens)?;
    let (_end, rest) = sign(rest, Mark::Semicolon)?;
    Ok((found, rest))
}

/// Invariants after a kind of component, which says nothing of them.
#[tactic(auto, unfolding(crate::specs::Reading::kind_invariants_at))]
pub fn kind_invariants<'a>(alloc: Global, text: &[u8], tokens: &'a [Token]) -> Read<'a, Items<Decl>>
    ensures { Gives (λ x. (x.0, x.1.now)) result (reading.kind_invariants_at text.now tokens.now) }
{
    let (_kind, rest) = component_kind(tokens)?;
    if starts(rest, &[TokenKind::Reserved(Word::Invariant)]) {
        invariants(alloc, text, rest)
    } else {
        unnamed_invariants(alloc, text, rest)
    }
}
