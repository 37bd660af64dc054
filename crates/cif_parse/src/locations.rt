//! Locations and what stands in them.

ghost use Rattle.std.specs.Prelude.{◌≡◌, IfOk, None, Option};
ghost use Rattle.cif_parse_expr.specs.Gives.{Gives};
ghost use Rattle.cif_parse.specs.Reading as reading;
ghost use Rattle.cif_parse.specs.Trees as tree;

use crate::edges::edge;
use crate::elements::Element;
use crate::expressions::perhaps;
use cif_ast::{Edge, Expr, Ident, Loc, LocEquation};
use cif_base::{Boxed, Items, Memory};
use cif_lex::{Mark, Token, TokenKind, Word};
use cif_parse_decl::given;
use cif_parse_expr::{
    ExprListPart, IdentPart, Part, Read, expr, fitted, ident, optional, repeated_boxes, sign,
    starts, word,
};
use std::alloc::Global;

/// `initial`, which may have `true` behind it.
#[tactic(auto, unfolding(crate::specs::Reading::initial_at))]
fn initial(alloc: Global, tokens: &[Token]) -> Read<'_, Boxed<Element>>
    ensures { Gives (λ x. (x.0, x.1.now)) result (reading.initial_at tokens.now) }
{
    let (_initial, rest) = word(tokens, Word::Initial)?;
    if starts(rest, &[TokenKind::Reserved(Word::True)]) {
        let (_true, rest) = word(rest, Word::True)?;
        let (_end, rest) = sign(rest, Mark::Semicolon)?;
        return Ok((Boxed::new(alloc, Element::Initial)?, rest));
    }
    let (_end, rest) = sign(rest, Mark::Semicolon)?;
    Ok((Boxed::new(alloc, Element::Initial)?, rest))
}

/// Marking predicates, of which there may be none.
#[tactic(auto, unfolding(crate::specs::Reading::marked_at))]
fn marked<'a>(alloc: Global, text: &[u8], tokens: &'a [Token]) -> Read<'a, Boxed<Element>>
    ensures { Gives (λ x. (x.0, x.1.now)) result (reading.marked_at text.now tokens.now) }
{
    let (_marked, rest) = word(tokens, Word::Marked)?;
    let (predicates, rest) = perhaps(&ExprListPart, alloc, text, rest)?;
    let (_end, rest) = sign(rest, Mark::Semicolon)?;
    let found = Boxed::new(alloc, Element::Marked(given(alloc, predicates)))?;
    Ok((found, rest))
}

/// The value of an algebraic variable in a location.
#[tactic(auto, unfolding(crate::specs::Reading::equation_at))]
fn equation<'a>(alloc: Global, text: &[u8], tokens: &'a [Token]) -> Read<'a, Boxed<Element>>
    ensures { Gives (λ x. (x.0, x.1.now)) result (reading.equation_at text.now tokens.now) }
{
    let (_equation, rest) = word(tokens, Word::Equation)?;
    let (name, rest) = ident(alloc, text, rest)?;
    let (_is, rest) = sign(rest, Mark::Equal)?;
    let (value, rest) = expr(alloc, text, rest)?;
    let (_end, rest) = sign(rest, Mark::Semicolon)?;
    let value = value.into_inner();
    let found = Boxed::new(alloc, Element::Equation(LocEquation { name, value }))?;
    Ok((found, rest))
}

/// An element of a location.
struct ElementPart;

impl Part for ElementPart {
    type Tree = Boxed<Element>;

    ghost use Rattle.cif_parse.specs.Reading as reading;

    ghost tree_at = { λ s. reading.element_at };

    #[tactic(auto, unfolding(crate::specs::Reading::element_at))]
    fn read<'a>(
        &self,
        alloc: Global,
        text: &[u8],
        tokens: &'a [Token],
    ) -> Read<'a, Boxed<Element>> {
        if starts(tokens, &[TokenKind::Reserved(Word::Initial)]) {
            initial(alloc, tokens)
        } else if starts(tokens, &[TokenKind::Reserved(Word::Marked)]) {
            marked(alloc, text, tokens)
        } else if starts(tokens, &[TokenKind::Reserved(Word::Equation)]) {
            equation(alloc, text, tokens)
        } else {
            let (found, rest) = edge(alloc, text, tokens)?;
            Ok((Boxed::new(alloc, Element::Edge(found))?, rest))
        }
    }
}

/// The elements of a location: none after a semicolon, and any number after a colon.
#[tactic(auto, unfolding(crate::specs::Reading::elements_at))]
fn elements<'a>(alloc: Global, text: &[u8], tokens: &'a [Token]) -> Read<'a, Items<Element>>
    ensures { Gives (λ x. (x.0, x.1.now)) result (reading.elements_at text.now tokens.now) }
{
    if starts(tokens, &[TokenKind::Sign(Mark::Semicolon)]) {
        let (_end, rest) = sign(tokens, Mark::Semicolon)?;
        return Ok((Items::new(alloc), rest));
    }
    let (_colon, rest) = sign(tokens, Mark::Colon)?;
    repeated_boxes(
        &ElementPart,
        alloc,
        text,
        &[
            TokenKind::Reserved(Word::Initial),
            TokenKind::Reserved(Word::Marked),
            TokenKind::Reserved(Word::Equation),
            TokenKind::Reserved(Word::Edge),
        ],
        rest,
    )
}

/// The location of its elements, without its name.
#[tactic(auto, using(crate::proofs::Sorting::initial_behind, crate::proofs::Sorting::same_initial, crate::proofs::Sorting::marked_behind, crate::proofs::Sorting::same_markings, crate::proofs::Sorting::equations_last, crate::proofs::Sorting::same_equations, crate::proofs::Sorting::edges_last, crate::proofs::Sorting::same_edges), unfolding(crate::specs::Trees::location_of))]
fn assembled(alloc: Global, elements: Items<Element>) -> Result<Loc, Memory>
    ensures { IfOk result (λ l. l ≡ tree.location_of None elements) }
{
    let mut is_initial = false;
    let mut marked: Items<Expr> = Items::new(alloc);
    let mut equations: Items<LocEquation> = Items::new(alloc);
    let mut edges: Items<Edge> = Items::new(alloc);
    for element in elements.into_vec() {
        match element {
            Element::Initial => is_initial = true,
            Element::Marked(predicates) => marked.append(predicates)?,
            Element::Equation(equation) => equations.push(equation)?,
            Element::Edge(edge) => edges.push(edge)?,
        }
    }
    Ok(Loc {
        name: None,
        initial: is_initial,
        marked,
        equations,
        edges: fitted(edges),
    })
}

/// A location.
#[tactic(auto, unfolding(crate::specs::Reading::location_at, crate::specs::Trees::location_of))]
fn location<'a>(alloc: Global, text: &[u8], tokens: &'a [Token]) -> Read<'a, Loc>
    ensures { Gives (λ x. (x.0, x.1.now)) result (reading.location_at text.now tokens.now) }
{
    let (_location, rest) = word(tokens, Word::Location)?;
    let (name, rest) = optional(&IdentPart, alloc, text, &[TokenKind::Id], rest)?;
    let (elements, rest) = elements(alloc, text, rest)?;
    let mut found = assembled(alloc, elements)?;
    found.name = name;
    Ok((found, rest))
}

/// A location, as a part.
pub struct LocationPart;

impl Part for LocationPart {
    type Tree = Loc;

    ghost use Rattle.cif_parse.specs.Reading as reading;

    ghost tree_at = { λ s. reading.location_at };

    fn read<'a>(&self, alloc: Global, text: &[u8], tokens: &'a [Token]) -> Read<'a, Loc> {
        location(alloc, text, tokens)
    }
}
