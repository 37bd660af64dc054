//! Automata: what stands before their locations, and their locations.

ghost use Rattle.std.specs.Prelude.{◌≡◌, IfOk, length};
ghost use Rattle.std.specs.List.{list_all};
ghost use Rattle.grammar.specs.Reader as reader;
ghost use Rattle.cif_parse_expr.specs.Gives.{Gives};
ghost use Rattle.cif_parse_expr.specs.TokenKinds as kinds;
ghost use Rattle.cif_parse.specs.Reading as reading;
ghost use Rattle.cif_parse.specs.Trees as tree;

use crate::bodies::BodyElement;
use crate::locations::LocationPart;
use crate::places::told_in_automaton;
use cif_ast::{AutoBody, Body, Decl, Loc, Name};
use cif_base::{Boxed, Items, Memory};
use cif_lex::{Mark, Token, TokenKind, Word};
use cif_parse_decl::{begins_declaration, component_kind, declaration, disc_declaration, given};
use cif_parse_expr::{
    NamesPart, Part, Read, ReadError, fitted, optional, repeated, sign, starts, word,
};
use std::alloc::Global;

/// `alphabet` and its events.
#[tactic(auto, unfolding(crate::specs::Reading::alphabet_at))]
fn alphabet<'a>(alloc: Global, text: &[u8], tokens: &'a [Token]) -> Read<'a, BodyElement>
    ensures { Gives (λ x. (x.0, x.1.now)) result (reading.alphabet_at text.now tokens.now) }
{
    let (_alphabet, rest) = word(tokens, Word::Alphabet)?;
    let (names, rest) = optional(
        &NamesPart,
        alloc,
        text,
        &[TokenKind::Sign(Mark::Dot), TokenKind::Id],
        rest,
    )?;
    let (_end, rest) = sign(rest, Mark::Semicolon)?;
    Ok((BodyElement::Alphabet(given(alloc, names)), rest))
}

/// `monitor` and its events.
#[tactic(auto, unfolding(crate::specs::Reading::monitor_at))]
fn monitor<'a>(alloc: Global, text: &[u8], tokens: &'a [Token]) -> Read<'a, BodyElement>
    ensures { Gives (λ x. (x.0, x.1.now)) result (reading.monitor_at text.now tokens.now) }
{
    let (_monitor, rest) = word(tokens, Word::Monitor)?;
    let (names, rest) = optional(
        &NamesPart,
        alloc,
        text,
        &[TokenKind::Sign(Mark::Dot), TokenKind::Id],
        rest,
    )?;
    let (_end, rest) = sign(rest, Mark::Semicolon)?;
    Ok((BodyElement::Monitor(given(alloc, names)), rest))
}

/// Declarations, an alphabet, or what is monitored.
#[tactic(auto, unfolding(crate::specs::Reading::body_element_at))]
fn body_element<'a>(alloc: Global, text: &[u8], tokens: &'a [Token]) -> Read<'a, BodyElement>
    ensures { Gives (λ x. (x.0, x.1.now)) result (reading.body_element_at text.now tokens.now) }
{
    if starts(tokens, &[TokenKind::Reserved(Word::Disc)]) {
        let (found, rest) = disc_declaration(alloc, text, tokens)?;
        Ok((BodyElement::Decls(found), rest))
    } else if starts(tokens, &[TokenKind::Reserved(Word::Alphabet)]) {
        alphabet(alloc, text, tokens)
    } else if starts(tokens, &[TokenKind::Reserved(Word::Monitor)]) {
        monitor(alloc, text, tokens)
    } else {
        let (found, rest) = declaration(alloc, text, tokens)?;
        Ok((BodyElement::Decls(found), rest))
    }
}

/// Whether something begins here that stands before the locations.
#[tactic(auto, using(crate::proofs::Firsts::body_element_begins))]
fn begins_body_element(tokens: &[Token]) -> bool
    ensures { result ≡ reader.starts kinds.sort reading.body_element_first tokens.now }
{
    begins_declaration(tokens)
        || starts(
            tokens,
            &[
                TokenKind::Reserved(Word::Plant),
                TokenKind::Reserved(Word::Requirement),
                TokenKind::Reserved(Word::Supervisor),
                TokenKind::Reserved(Word::Disc),
                TokenKind::Reserved(Word::Alphabet),
                TokenKind::Reserved(Word::Monitor),
            ],
        )
}

/// What stands before the locations.
#[tactic(auto, using(grammar::proofs::Loops::after_step, grammar::proofs::Loops::after_stop, grammar::proofs::Loops::after_fail, grammar::proofs::Loops::after_end, grammar::proofs::Loops::after_none))]
fn body_elements<'a>(
    alloc: Global,
    text: &[u8],
    tokens: &'a [Token],
) -> Read<'a, Items<BodyElement>>
    ensures { Gives (λ x. (x.0, x.1.now)) result (reader.many_at kinds.sort reading.body_element_first (reading.body_element_at text.now) tokens.now) }
{
    let mut found = Items::new(alloc);
    let mut rest = tokens;
    for _turn in 0..tokens.len() {
        if !begins_body_element(rest) {
            return Ok((found, rest));
        }
        let (element, left) = body_element(alloc, text, rest)?;
        found.push(element)?;
        rest = left;
    }
    Ok((found, rest))
}

/// One location or more.
#[tactic(auto, unfolding(crate::specs::Reading::locations_at))]
fn locations<'a>(alloc: Global, text: &[u8], tokens: &'a [Token]) -> Read<'a, Items<Loc>>
    ensures { Gives (λ x. (x.0, x.1.now)) result (reading.locations_at text.now tokens.now) }
{
    let (found, rest) = repeated(
        &LocationPart,
        alloc,
        text,
        &[TokenKind::Reserved(Word::Location)],
        tokens,
    )?;
    if has_one(found.as_slice()) {
        Ok((found, rest))
    } else {
        Err(ReadError::NotRead(rest.len()))
    }
}

fn has_one(locs: &[Loc]) -> bool
    ensures { result ≡ tree.has_one locs.now }
{
    match locs {
        [] => false,
        [_, ..] => true,
    }
}

/// How many alphabets there are.
fn alphabets(elements: &[BodyElement]) -> usize
    ensures { result ≡ length (tree.alphabets_of elements.now) }
{
    let mut count = 0;
    for element in elements {
        if let BodyElement::Alphabet(_) = element {
            count += 1;
        }
    }
    count
}

/// How many lists of monitored events there are.
fn monitors(elements: &[BodyElement]) -> usize
    ensures { result ≡ length (tree.monitors_of elements.now) }
{
    let mut count = 0;
    for element in elements {
        if let BodyElement::Monitor(_) = element {
            count += 1;
        }
    }
    count
}

/// Whether every location has a name.
fn are_named(locs: &[Loc]) -> bool
    ensures { result ≡ list_all tree.is_named locs.now }
{
    for loc in locs {
        if loc.name.is_none() {
            return false;
        }
    }
    true
}

/// Whether these may be one automaton: it has at most one alphabet and one list of monitored events, and a location without a
/// name is the only one.
#[tactic(auto, unfolding(crate::specs::Trees::is_automaton))]
fn is_automaton(elements: &[BodyElement], locs: &[Loc]) -> bool
    ensures { result ≡ tree.is_automaton (elements.now, locs.now) }
{
    alphabets(elements) <= 1 && (monitors(elements) <= 1 && (locs.len() <= 1 || are_named(locs)))
}

/// The body of an automaton by its elements.
#[tactic(auto, using(crate::proofs::Sorting::declared_behind, crate::proofs::Sorting::same_declarations, crate::proofs::Sorting::only_alphabet, crate::proofs::Sorting::same_alphabet, crate::proofs::Sorting::only_monitor, crate::proofs::Sorting::same_monitor), unfolding(crate::specs::Trees::automaton_of))]
fn gathered(
    alloc: Global,
    elements: Items<BodyElement>,
    locs: Items<Loc>,
) -> Result<AutoBody, Memory>
    ensures { IfOk result (λ b. b ≡ tree.automaton_of elements locs) }
{
    let mut decls: Items<Decl> = Items::new(alloc);
    let mut alphabet: Option<Items<Name>> = None;
    let mut monitor: Option<Items<Name>> = None;
    for element in elements.into_vec() {
        match element {
            BodyElement::Decls(found) => decls.append(found)?,
            BodyElement::Alphabet(names) => alphabet = Some(names),
            BodyElement::Monitor(names) => monitor = Some(names),
        }
    }
    Ok(AutoBody {
        decls: fitted(decls),
        alphabet,
        monitor,
        locs: fitted(locs),
    })
}

/// The body of an automaton.
#[tactic(auto, using(crate::proofs::Failing::still_fails))]
fn automaton_body<'a>(alloc: Global, text: &[u8], tokens: &'a [Token]) -> Read<'a, AutoBody>
    ensures { Gives (λ x. (x.0, x.1.now)) result (reading.automaton_body_at text.now tokens.now) }
{
    match body_parts(alloc, text, tokens) {
        Ok(found) => Ok(found),
        Err(error) => Err(told_in_automaton(tokens, error)),
    }
}

/// The body of an automaton by its parts.
#[tactic(auto, unfolding(crate::specs::Reading::automaton_body_at, crate::specs::Reading::body_parts_at))]
fn body_parts<'a>(alloc: Global, text: &[u8], tokens: &'a [Token]) -> Read<'a, AutoBody>
    ensures { Gives (λ x. (x.0, x.1.now)) result (reading.automaton_body_at text.now tokens.now) }
{
    let (elements, rest) = body_elements(alloc, text, tokens)?;
    let (locs, rest) = locations(alloc, text, rest)?;
    if !is_automaton(elements.as_slice(), locs.as_slice()) {
        return Err(ReadError::NotRead(rest.len()));
    }
    Ok((gathered(alloc, elements, locs)?, rest))
}

/// A colon, the body of an automaton and `end`, as a part.
pub struct AutomatonEndPart;

impl Part for AutomatonEndPart {
    type Tree = Boxed<Body>;

    ghost use Rattle.cif_parse.specs.Reading as reading;

    ghost tree_at = { λ s. reading.automaton_end_at };

    #[tactic(auto, unfolding(crate::specs::Reading::automaton_end_at))]
    fn read<'a>(&self, alloc: Global, text: &[u8], tokens: &'a [Token]) -> Read<'a, Boxed<Body>> {
        let (_colon, rest) = sign(tokens, Mark::Colon)?;
        let (found, rest) = automaton_body(alloc, text, rest)?;
        let (_end, rest) = word(rest, Word::End)?;
        Ok((Boxed::new(alloc, Body::Auto(found))?, rest))
    }
}

/// The words that begin an automaton, of which the first is given.
#[tactic(auto, unfolding(crate::specs::Reading::automaton_at))]
pub fn automaton_words(tokens: &[Token]) -> Read<'_, &Token>
    ensures { Gives (λ x. (x.0.now, x.1.now)) result (reading.automaton_at tokens.now) }
{
    if starts(tokens, &[TokenKind::Reserved(Word::Automaton)]) {
        return word(tokens, Word::Automaton);
    }
    let (kind, rest) = component_kind(tokens)?;
    if starts(rest, &[TokenKind::Reserved(Word::Automaton)]) {
        let (_automaton, rest) = word(rest, Word::Automaton)?;
        return Ok((kind, rest));
    }
    Ok((kind, rest))
}
