//! Parameters of definitions.

ghost use Rattle.std.specs.Prelude.{◌≡◌};
ghost use Rattle.cif_parse_expr.specs.Gives.{Gives};
ghost use Rattle.cif_parse_decl.specs.Reading as reading;
ghost use Rattle.cif_parse_decl.specs.Trees as tree;

use crate::events::event_parameters;
use crate::types::{type_again, type_use};
use cif_ast::{Param, TypeUse};
use cif_base::{Boxed, Items};
use cif_lex::{Mark, Token, TokenKind, Word};
use cif_parse_expr::{
    Part, Read, ident, joined_list, optional, separated_boxes, sign, starts, word,
};
use std::alloc::Global;

/// An algebraic parameter of a type.
#[derive(Drop)]
struct AlgParameter<'t> {
    ty: &'t TypeUse,
}

impl<'t> Part for AlgParameter<'t> {
    type Tree = Boxed<Param>;

    ghost use Rattle.cif_parse_decl.specs.Reading as reading;
    ghost use Rattle.cif_parse_decl.specs.Trees as tree;

    ghost tree_at = { λ s text. reading.made_at text (tree.algebraic_parameter s.ty.now) };

    #[tactic(auto, unfolding(crate::specs::Reading::made_at))]
    fn read<'a>(&self, alloc: Global, text: &[u8], tokens: &'a [Token]) -> Read<'a, Boxed<Param>> {
        let (name, rest) = ident(alloc, text, tokens)?;
        let ty = type_again(alloc, self.ty)?.into_inner();
        let found = Boxed::new(alloc, Param::Alg { ty, name })?;
        Ok((found, rest))
    }
}

/// A location parameter.
struct LocationParameter;

impl Part for LocationParameter {
    type Tree = Boxed<Param>;

    ghost use Rattle.cif_parse_decl.specs.Reading as reading;
    ghost use Rattle.cif_parse_decl.specs.Trees as tree;

    ghost tree_at = { λ s text. reading.made_at text tree.location_parameter };

    #[tactic(auto, unfolding(crate::specs::Reading::made_at))]
    fn read<'a>(&self, alloc: Global, text: &[u8], tokens: &'a [Token]) -> Read<'a, Boxed<Param>> {
        let (name, rest) = ident(alloc, text, tokens)?;
        Ok((Boxed::new(alloc, Param::Location { name })?, rest))
    }
}

#[tactic(auto, unfolding(crate::specs::Reading::alg_parameter_at, crate::specs::Reading::typed_at))]
fn alg_parameters<'a>(alloc: Global, text: &[u8], tokens: &'a [Token]) -> Read<'a, Items<Param>>
    ensures { Gives (λ x. (x.0, x.1.now)) result (reading.alg_parameter_at text.now tokens.now) }
{
    let (_alg, rest) = word(tokens, Word::Alg)?;
    let (ty, rest) = type_use(alloc, text, rest)?;
    separated_boxes(
        &AlgParameter { ty: ty.get() },
        alloc,
        text,
        Mark::Comma,
        rest,
    )
}

#[tactic(auto, unfolding(crate::specs::Reading::location_parameter_at))]
fn location_parameters<'a>(
    alloc: Global,
    text: &[u8],
    tokens: &'a [Token],
) -> Read<'a, Items<Param>>
    ensures { Gives (λ x. (x.0, x.1.now)) result (reading.location_parameter_at text.now tokens.now) }
{
    let (_location, rest) = word(tokens, Word::Location)?;
    separated_boxes(&LocationParameter, alloc, text, Mark::Comma, rest)
}

/// Parameters that stand before a semicolon.
struct ParameterPart;

impl Part for ParameterPart {
    type Tree = Items<Param>;

    ghost use Rattle.cif_parse_decl.specs.Reading as reading;

    ghost tree_at = { λ s. reading.parameter_at };

    #[tactic(auto, unfolding(crate::specs::Reading::parameter_at))]
    fn read<'a>(&self, alloc: Global, text: &[u8], tokens: &'a [Token]) -> Read<'a, Items<Param>> {
        if starts(
            tokens,
            &[
                TokenKind::Reserved(Word::Event),
                TokenKind::Reserved(Word::Controllable),
                TokenKind::Reserved(Word::Uncontrollable),
            ],
        ) {
            event_parameters(alloc, text, tokens)
        } else if starts(tokens, &[TokenKind::Reserved(Word::Alg)]) {
            alg_parameters(alloc, text, tokens)
        } else {
            location_parameters(alloc, text, tokens)
        }
    }
}

/// Parameters with semicolons between them.
struct ParameterList;

impl Part for ParameterList {
    type Tree = Items<Param>;

    ghost use Rattle.cif_parse_decl.specs.Reading as reading;

    ghost tree_at = { λ s. reading.parameter_list_at };

    #[tactic(auto, unfolding(crate::specs::Reading::parameter_list_at, cif_parse_expr::specs::Parts::joined_list_at))]
    fn read<'a>(&self, alloc: Global, text: &[u8], tokens: &'a [Token]) -> Read<'a, Items<Param>> {
        joined_list(&ParameterPart, alloc, text, Mark::Semicolon, tokens)
    }
}

/// A list that may be absent.
pub fn given<T: Drop>(alloc: Global, all: Option<Items<T>>) -> Items<T>
    ensures { result ≡ tree.given all }
{
    match all {
        Some(all) => all,
        None => Items::new(alloc),
    }
}

/// Parameters in parentheses.
#[tactic(auto, unfolding(crate::specs::Reading::parameters_at))]
pub fn parameters<'a>(alloc: Global, text: &[u8], tokens: &'a [Token]) -> Read<'a, Items<Param>>
    ensures { Gives (λ x. (x.0, x.1.now)) result (reading.parameters_at text.now tokens.now) }
{
    let (_open, rest) = sign(tokens, Mark::OpenParen)?;
    let (found, rest) = optional(
        &ParameterList,
        alloc,
        text,
        &[
            TokenKind::Reserved(Word::Event),
            TokenKind::Reserved(Word::Controllable),
            TokenKind::Reserved(Word::Uncontrollable),
            TokenKind::Reserved(Word::Alg),
            TokenKind::Reserved(Word::Location),
        ],
        rest,
    )?;
    let (_close, rest) = sign(rest, Mark::CloseParen)?;
    Ok((given(alloc, found), rest))
}
