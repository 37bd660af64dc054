//! Components, definitions and instances. The reader of an item one level down is a parameter, so that each rule is proved by
//! itself.

ghost use Rattle.std.specs.Prelude.{◌≡◌, IfOk, map};
ghost use Rattle.grammar.specs.Reader as reader;
ghost use Rattle.cif_ast.specs.declared.components.Item.TheVariants as item;
ghost use Rattle.cif_parse_expr.specs.Gives.{Gives};
ghost use Rattle.cif_parse_expr.specs.TokenKinds as kinds;
ghost use Rattle.cif_parse_decl.specs.Reading as declarations;
ghost use Rattle.cif_parse.specs.Reading as reading;
ghost use Rattle.cif_parse.specs.Trees as tree;
ghost use Rattle.cif_parse.specs.ReadsItem.{ReadsItem};

use crate::automata::{AutomatonEndPart, automaton_words};
use crate::expressions::perhaps;
use crate::places::told_at_item;
use cif_ast::{Body, Comp, Decl, Def, Expr, Ident, Inst, Item, Param};
use cif_base::{Boxed, Items, Memory};
use cif_lex::{Mark, Token, TokenKind, Word};
use cif_parse_decl::{
    begins_declaration, given, is_component, kind_invariants, parameters, plain_declaration,
};
use cif_parse_expr::{ExprListPart, Part, Read, ReadError, ident, name, only, sign, starts, word};
use std::alloc::Global;

/// How deep components may nest, the outermost counted.
const MAX_NESTING: u8 = 101;

/// Declarations as items.
pub fn declared(alloc: Global, decls: Items<Decl>) -> Result<Items<Item>, Memory>
    ensures { IfOk result (λ all. all ≡ map item.Decl decls) }
{
    let mut all = Items::new(alloc);
    for decl in decls.into_vec() {
        all.push(Item::Decl(decl))?;
    }
    Ok(all)
}

/// The arguments of an instance, up to its end.
#[tactic(auto, unfolding(crate::specs::Reading::arguments_at))]
fn arguments<'a>(alloc: Global, text: &[u8], tokens: &'a [Token]) -> Read<'a, Items<Expr>>
    ensures { Gives (λ x. (x.0, x.1.now)) result (reading.arguments_at text.now tokens.now) }
{
    let (found, rest) = perhaps(&ExprListPart, alloc, text, tokens)?;
    let (_close, rest) = sign(rest, Mark::CloseParen)?;
    let (_end, rest) = sign(rest, Mark::Semicolon)?;
    Ok((given(alloc, found), rest))
}

/// An instance of a definition.
#[tactic(auto, unfolding(crate::specs::Reading::instance_at))]
pub fn instance<'a>(alloc: Global, text: &[u8], tokens: &'a [Token]) -> Read<'a, Boxed<Item>>
    ensures { Gives (λ x. (x.0, x.1.now)) result (reading.instance_at text.now tokens.now) }
{
    let (own, rest) = ident(alloc, text, tokens)?;
    let (_colon, rest) = sign(rest, Mark::Colon)?;
    let (def, rest) = name(alloc, text, rest)?;
    let (_open, rest) = sign(rest, Mark::OpenParen)?;
    let (args, rest) = arguments(alloc, text, rest)?;
    let found = Inst {
        name: own,
        def,
        args,
    };
    Ok((Boxed::new(alloc, Item::Inst(found))?, rest))
}

/// A component of its name and its body.
fn component(alloc: Global, name: Ident, body: Boxed<Body>) -> Result<Boxed<Item>, Memory>
    ensures { IfOk result (λ i. i ≡ tree.component_item name body) }
{
    let body = body.into_inner();
    Boxed::new(alloc, Item::Comp(Comp { name, body }))
}

/// A definition of its name, its parameters and its body.
fn definition(
    alloc: Global,
    name: Ident,
    params: Items<Param>,
    body: Boxed<Body>,
) -> Result<Boxed<Item>, Memory>
    ensures { IfOk result (λ i. i ≡ tree.definition_item name params body) }
{
    let body = body.into_inner();
    Boxed::new(alloc, Item::Def(Def { name, params, body }))
}

/// The name and the body of an automaton.
#[tactic(auto, unfolding(crate::specs::Reading::named_end_at))]
fn named_automaton<'a>(alloc: Global, text: &[u8], tokens: &'a [Token]) -> Read<'a, Boxed<Item>>
    ensures { Gives (λ x. (x.0, x.1.now)) result (reading.named_end_at text.now (reading.automaton_end_at text.now) tokens.now) }
{
    let (name, rest) = ident(alloc, text, tokens)?;
    let (body, rest) = AutomatonEndPart.read(alloc, text, rest)?;
    Ok((component(alloc, name, body)?, rest))
}

/// `def`, and the name, the parameters and the body of an automaton.
#[tactic(auto, unfolding(crate::specs::Reading::defined_end_at))]
fn defined_automaton<'a>(alloc: Global, text: &[u8], tokens: &'a [Token]) -> Read<'a, Boxed<Item>>
    ensures { Gives (λ x. (x.0, x.1.now)) result (reading.defined_end_at text.now (reading.automaton_end_at text.now) tokens.now) }
{
    let (_def, rest) = word(tokens, Word::Def)?;
    let (name, rest) = ident(alloc, text, rest)?;
    let (params, rest) = parameters(alloc, text, rest)?;
    let (body, rest) = AutomatonEndPart.read(alloc, text, rest)?;
    Ok((definition(alloc, name, params, body)?, rest))
}

/// An automaton, or a definition of one.
#[tactic(auto, unfolding(crate::specs::Reading::automaton_item_at, crate::specs::Reading::component_end_at))]
fn automaton<'a>(alloc: Global, text: &[u8], tokens: &'a [Token]) -> Read<'a, Boxed<Item>>
    ensures { Gives (λ x. (x.0, x.1.now)) result (reading.automaton_item_at text.now tokens.now) }
{
    let (_words, rest) = automaton_words(tokens)?;
    if starts(rest, &[TokenKind::Reserved(Word::Def)]) {
        defined_automaton(alloc, text, rest)
    } else {
        named_automaton(alloc, text, rest)
    }
}

/// A reader of components over one of the items inside them.
#[derive(Clone, Copy)]
pub struct Components<'t, F> {
    alloc: Global,
    /// The source that the tokens are of.
    text: &'t [u8],
    /// How deep the items inside may nest.
    depth: u8,
    item: F,
}

impl<
    't,
    F: for<'a> Fn(
        Global,
        &'t [u8],
        &'a [Token],
        u8,
    ) -> Result<(Items<Item>, &'a [Token]), ReadError>,
> Components<'t, F> {
    /// An item, as the list of what it declares.
    fn one<'a>(&self, tokens: &'a [Token]) -> Read<'a, Items<Item>>
        requires { ReadsItem self.now.text self.now.depth (F.pre self.now.item) (F.post self.now.item) }
        ensures { Gives (λ x. (x.0, x.1.now)) result (reading.item_at self.now.text.now self.now.depth tokens.now) }
    {
        (self.item)(self.alloc, self.text, tokens, self.depth)
    }

    /// Items one after the other.
    #[tactic(auto, using(grammar::proofs::Loops::flat_step, grammar::proofs::Loops::flat_stop, grammar::proofs::Loops::flat_fail, grammar::proofs::Loops::flat_end, grammar::proofs::Loops::flat_after_none), unfolding(crate::specs::Reading::all_items_at))]
    fn all<'a>(&self, tokens: &'a [Token]) -> Read<'a, Items<Item>>
        requires { ReadsItem self.now.text self.now.depth (F.pre self.now.item) (F.post self.now.item) }
        ensures { Gives (λ x. (x.0, x.1.now)) result (reading.all_items_at (reading.item_at self.now.text.now self.now.depth) tokens.now) }
    {
        let mut found = Items::new(self.alloc);
        let mut rest = tokens;
        for _turn in 0..tokens.len() {
            if !begins_item(rest) {
                return Ok((found, rest));
            }
            let (items, left) = self.one(rest)?;
            found.append(items)?;
            rest = left;
        }
        Ok((found, rest))
    }

    /// A colon, items and `end`.
    #[tactic(auto, unfolding(crate::specs::Reading::group_end_at))]
    fn group_end<'a>(&self, tokens: &'a [Token]) -> Read<'a, Boxed<Body>>
        requires { ReadsItem self.now.text self.now.depth (F.pre self.now.item) (F.post self.now.item) }
        ensures { Gives (λ x. (x.0, x.1.now)) result (reading.group_end_at self.now.text.now (reading.all_items_at (reading.item_at self.now.text.now self.now.depth)) tokens.now) }
    {
        let (_colon, rest) = sign(tokens, Mark::Colon)?;
        let (items, rest) = self.all(rest)?;
        let (_end, rest) = word(rest, Word::End)?;
        Ok((Boxed::new(self.alloc, Body::Group(items))?, rest))
    }

    /// The name and the body of a group.
    #[tactic(auto, unfolding(crate::specs::Reading::named_end_at))]
    fn named_group<'a>(&self, tokens: &'a [Token]) -> Read<'a, Boxed<Item>>
        requires { ReadsItem self.now.text self.now.depth (F.pre self.now.item) (F.post self.now.item) }
        ensures { Gives (λ x. (x.0, x.1.now)) result (reading.named_end_at self.now.text.now (reading.group_end_at self.now.text.now (reading.all_items_at (reading.item_at self.now.text.now self.now.depth))) tokens.now) }
    {
        let (name, rest) = ident(self.alloc, self.text, tokens)?;
        let (body, rest) = self.group_end(rest)?;
        Ok((component(self.alloc, name, body)?, rest))
    }

    /// `def`, and the name, the parameters and the body of a group.
    #[tactic(auto, unfolding(crate::specs::Reading::defined_end_at))]
    fn defined_group<'a>(&self, tokens: &'a [Token]) -> Read<'a, Boxed<Item>>
        requires { ReadsItem self.now.text self.now.depth (F.pre self.now.item) (F.post self.now.item) }
        ensures { Gives (λ x. (x.0, x.1.now)) result (reading.defined_end_at self.now.text.now (reading.group_end_at self.now.text.now (reading.all_items_at (reading.item_at self.now.text.now self.now.depth))) tokens.now) }
    {
        let (_def, rest) = word(tokens, Word::Def)?;
        let (name, rest) = ident(self.alloc, self.text, rest)?;
        let (params, rest) = parameters(self.alloc, self.text, rest)?;
        let (body, rest) = self.group_end(rest)?;
        Ok((definition(self.alloc, name, params, body)?, rest))
    }

    /// A group, or a definition of one.
    #[tactic(auto, unfolding(crate::specs::Reading::group_at, crate::specs::Reading::component_end_at))]
    fn group<'a>(&self, tokens: &'a [Token]) -> Read<'a, Boxed<Item>>
        requires { ReadsItem self.now.text self.now.depth (F.pre self.now.item) (F.post self.now.item) }
        ensures { Gives (λ x. (x.0, x.1.now)) result (reading.group_at self.now.text.now (reading.all_items_at (reading.item_at self.now.text.now self.now.depth)) tokens.now) }
    {
        let (_group, rest) = word(tokens, Word::Group)?;
        if starts(rest, &[TokenKind::Reserved(Word::Def)]) {
            self.defined_group(rest)
        } else {
            self.named_group(rest)
        }
    }

    /// A component or a definition.
    #[tactic(auto, unfolding(crate::specs::Reading::nested_at))]
    fn nested<'a>(&self, tokens: &'a [Token]) -> Read<'a, Boxed<Item>>
        requires { ReadsItem self.now.text self.now.depth (F.pre self.now.item) (F.post self.now.item) }
        ensures { Gives (λ x. (x.0, x.1.now)) result (reading.nested_at self.now.text.now (reading.all_items_at (reading.item_at self.now.text.now self.now.depth)) tokens.now) }
    {
        if starts(tokens, &[TokenKind::Reserved(Word::Group)]) {
            self.group(tokens)
        } else {
            automaton(self.alloc, self.text, tokens)
        }
    }
}

/// Whether an item begins here.
#[tactic(auto, using(crate::proofs::Firsts::item_begins))]
fn begins_item(tokens: &[Token]) -> bool
    ensures { result ≡ reader.starts kinds.sort reading.item_first tokens.now }
{
    begins_declaration(tokens)
        || starts(
            tokens,
            &[
                TokenKind::Id,
                TokenKind::Reserved(Word::Group),
                TokenKind::Reserved(Word::Automaton),
                TokenKind::Reserved(Word::Plant),
                TokenKind::Reserved(Word::Requirement),
                TokenKind::Reserved(Word::Supervisor),
            ],
        )
}

/// Invariants after a kind.
#[tactic(auto, using(crate::proofs::Failing::still_fails))]
pub fn invariants<'a>(alloc: Global, text: &[u8], tokens: &'a [Token]) -> Read<'a, Items<Decl>>
    ensures { Gives (λ x. (x.0, x.1.now)) result (declarations.kind_invariants_at text.now tokens.now) }
{
    match kind_invariants(alloc, text, tokens) {
        Ok(found) => Ok(found),
        Err(error) => Err(told_at_item(tokens, error)),
    }
}

/// A component or a definition, in which others may nest so often less once.
#[tactic(auto, using(crate::proofs::Depths::plain_read, crate::proofs::Depths::instance_read, crate::proofs::Depths::kind_read, crate::proofs::Depths::no_nested_read), unfolding(crate::specs::Reading::item_at, crate::specs::Reading::item_over))]
fn item<'a>(
    alloc: Global,
    text: &[u8],
    tokens: &'a [Token],
    depth: u8,
) -> Result<(Items<Item>, &'a [Token]), ReadError>
    ensures { Gives (λ x. (x.0, x.1.now)) result (reading.item_at text.now depth tokens.now) }
{
    if begins_declaration(tokens) {
        let (decls, rest) = plain_declaration(alloc, text, tokens)?;
        return Ok((declared(alloc, decls)?, rest));
    }
    if starts(tokens, &[TokenKind::Id]) {
        let (found, rest) = instance(alloc, text, tokens)?;
        return Ok((only(alloc, found.into_inner())?, rest));
    }
    if !is_component(tokens) {
        let (decls, rest) = invariants(alloc, text, tokens)?;
        return Ok((declared(alloc, decls)?, rest));
    }
    if depth == 0 {
        return Err(ReadError::NotRead(tokens.len()));
    }
    let inside = Components {
        alloc,
        text,
        depth: depth - 1,
        item,
    };
    let (found, rest) = inside.nested(tokens)?;
    Ok((only(alloc, found.into_inner())?, rest))
}

/// The items of a specification.
#[tactic(auto, unfolding(crate::specs::Reading::items_at))]
pub fn items<'a>(alloc: Global, text: &[u8], tokens: &'a [Token]) -> Read<'a, Items<Item>>
    ensures { Gives (λ x. (x.0, x.1.now)) result (reading.items_at text.now 101 tokens.now) }
{
    let outermost = Components {
        alloc,
        text,
        depth: MAX_NESTING,
        item,
    };
    outermost.all(tokens)
}
