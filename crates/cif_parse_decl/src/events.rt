//! Events, as declarations and as parameters.

ghost use Rattle.std.specs.Prelude.{◌≡◌};
ghost use Rattle.cif_parse_expr.specs.Gives.{Gives};
ghost use Rattle.cif_parse_decl.specs.Reading as reading;
ghost use Rattle.cif_parse_decl.specs.Trees as tree;

use crate::sight::is_bare;
use crate::types::{channel, channel_again};
use cif_ast::{Chan, Class, Decl, Param};
use cif_base::{Boxed, Items};
use cif_lex::{Mark, Token, TokenKind, Word};
use cif_parse_expr::{Part, Read, any_of, code, ident, separated_boxes};
use std::alloc::Global;

/// The class that a word says.
fn class_of(token: &Token) -> Class
    ensures { result ≡ tree.class_of token.now }
{
    if code(token.kind) == code(TokenKind::Reserved(Word::Controllable)) {
        Class::Con
    } else if code(token.kind) == code(TokenKind::Reserved(Word::Uncontrollable)) {
        Class::Unc
    } else {
        Class::Plain
    }
}

/// The word that begins events.
#[tactic(auto, unfolding(crate::specs::Reading::event_word_at))]
fn event_word(tokens: &[Token]) -> Read<'_, Class>
    ensures { Gives (λ x. (x.0, x.1.now)) result (reading.event_word_at tokens.now) }
{
    let (token, rest) = any_of(
        tokens,
        &[
            TokenKind::Reserved(Word::Event),
            TokenKind::Reserved(Word::Controllable),
            TokenKind::Reserved(Word::Uncontrollable),
        ],
    )?;
    Ok((class_of(token), rest))
}

/// An event of a class and a channel.
#[derive(Drop)]
struct Event<'c> {
    class: Class,
    chan: &'c Chan,
}

impl<'c> Part for Event<'c> {
    type Tree = Boxed<Decl>;

    ghost use Rattle.cif_parse_decl.specs.Reading as reading;
    ghost use Rattle.cif_parse_decl.specs.Trees as tree;

    ghost tree_at = { λ s text. reading.made_at text (tree.event s.class s.chan.now) };

    #[tactic(auto, unfolding(crate::specs::Reading::made_at))]
    fn read<'a>(&self, alloc: Global, text: &[u8], tokens: &'a [Token]) -> Read<'a, Boxed<Decl>> {
        let (name, rest) = ident(alloc, text, tokens)?;
        let chan = channel_again(alloc, self.chan)?.into_inner();
        let class = self.class;
        let found = Boxed::new(alloc, Decl::Event { class, chan, name })?;
        Ok((found, rest))
    }
}

/// An event parameter of a class and a channel.
#[derive(Drop)]
struct EventParameter<'c> {
    class: Class,
    chan: &'c Chan,
}

impl<'c> Part for EventParameter<'c> {
    type Tree = Boxed<Param>;

    ghost use Rattle.cif_parse_decl.specs.Reading as reading;
    ghost use Rattle.cif_parse_decl.specs.Trees as tree;

    ghost tree_at = { λ s text. reading.made_at text (tree.event_parameter s.class s.chan.now) };

    #[tactic(auto, unfolding(crate::specs::Reading::made_at))]
    fn read<'a>(&self, alloc: Global, text: &[u8], tokens: &'a [Token]) -> Read<'a, Boxed<Param>> {
        let (name, rest) = ident(alloc, text, tokens)?;
        let chan = channel_again(alloc, self.chan)?.into_inner();
        let class = self.class;
        let found = Boxed::new(alloc, Param::Event { class, chan, name })?;
        Ok((found, rest))
    }
}

/// Events of a class, with a channel or without.
#[tactic(auto, unfolding(crate::specs::Reading::channelled_at))]
fn channelled<'a>(
    alloc: Global,
    text: &[u8],
    class: Class,
    tokens: &'a [Token],
) -> Read<'a, Items<Decl>>
    ensures { Gives (λ x. (x.0, x.1.now)) result (reading.channelled_at text.now (tree.event class) tokens.now) }
{
    if is_bare(tokens) {
        let chan = Chan::No;
        let part = Event { class, chan: &chan };
        return separated_boxes(&part, alloc, text, Mark::Comma, tokens);
    }
    let (chan, rest) = channel(alloc, text, tokens)?;
    let part = Event {
        class,
        chan: chan.get(),
    };
    separated_boxes(&part, alloc, text, Mark::Comma, rest)
}

/// Event parameters of a class, with a channel or without.
#[tactic(auto, unfolding(crate::specs::Reading::channelled_at))]
fn channelled_parameters<'a>(
    alloc: Global,
    text: &[u8],
    class: Class,
    tokens: &'a [Token],
) -> Read<'a, Items<Param>>
    ensures { Gives (λ x. (x.0, x.1.now)) result (reading.channelled_at text.now (tree.event_parameter class) tokens.now) }
{
    if is_bare(tokens) {
        let chan = Chan::No;
        let part = EventParameter { class, chan: &chan };
        return separated_boxes(&part, alloc, text, Mark::Comma, tokens);
    }
    let (chan, rest) = channel(alloc, text, tokens)?;
    let part = EventParameter {
        class,
        chan: chan.get(),
    };
    separated_boxes(&part, alloc, text, Mark::Comma, rest)
}

/// Events with the word before them.
#[tactic(auto, unfolding(crate::specs::Reading::classed_at))]
pub fn events<'a>(alloc: Global, text: &[u8], tokens: &'a [Token]) -> Read<'a, Items<Decl>>
    ensures { Gives (λ x. (x.0, x.1.now)) result (reading.classed_at text.now tree.event tokens.now) }
{
    let (class, rest) = event_word(tokens)?;
    channelled(alloc, text, class, rest)
}

/// Event parameters with the word before them.
#[tactic(auto, unfolding(crate::specs::Reading::classed_at))]
pub fn event_parameters<'a>(
    alloc: Global,
    text: &[u8],
    tokens: &'a [Token],
) -> Read<'a, Items<Param>>
    ensures { Gives (λ x. (x.0, x.1.now)) result (reading.classed_at text.now tree.event_parameter tokens.now) }
{
    let (class, rest) = event_word(tokens)?;
    channelled_parameters(alloc, text, class, rest)
}
