//! Parts of a source that are read one after the other.

ghost use Rattle.std.specs.Prelude.{◌≡◌, [], ◌∷◌, IfOk};
ghost use Rattle.grammar.specs.Lang.{flat};
ghost use Rattle.grammar.specs.Reader as reader;
ghost use Rattle.grammar.specs.Loops.{after, flat_after};
ghost use Rattle.cif_parse_expr.specs.TokenKinds as kinds;
ghost use Rattle.cif_parse_expr.specs.Reading as reading;
ghost use Rattle.cif_parse_expr.specs.Parts as parts;
ghost use Rattle.cif_parse_expr.specs.Gives.{Gives};

use crate::tokens::{Read, sign, starts};
use cif_base::{Boxed, Items, Memory};
use cif_lex::{Mark, Token, TokenKind};
use std::alloc::Global;

/// A part of a source, of which a reader takes the tree from the front.
pub trait Part {
    type Tree: Drop;

    ghost use Rattle.grammar.specs.Pieces.{Text};
    ghost use Rattle.grammar.specs.Reader.{Reader};
    ghost use Rattle.cif_lex.specs.declared.token.Token.{Token};
    ghost use Rattle.cif_parse_expr.specs.Gives.{Gives};

    ghost tree_at: { Self → Text → Reader Token Self.Tree };

    /// The part at the front.
    fn read<'a>(&self, alloc: Global, text: &[u8], tokens: &'a [Token]) -> Read<'a, Self::Tree>
        ensures { Gives (λ x. (x.0, x.1.now)) result (tree_at self.now text.now tokens.now) };
}

/// A list of one item, in the memory of that item alone: most lists of a source have no more.
pub fn only<T: Drop>(alloc: Global, item: T) -> Result<Items<T>, Memory>
    ensures { IfOk result (λ all. all ≡ item ∷ []) }
{
    let mut all = Items::from_vec(Vec::with_capacity(alloc, 1)?);
    all.push(item)?;
    Ok(all)
}

/// A list without memory for more items than it has.
pub fn fitted<T>(list: Items<T>) -> Items<T>
    ensures { result ≡ list }
{
    let mut all = list.into_vec();
    all.shrink_to_fit();
    Items::from_vec(all)
}

/// A sign and a part.
#[tactic(auto, unfolding(crate::specs::Reading::after_sign_at))]
fn next<'a, P: Part>(
    part: &P,
    alloc: Global,
    text: &[u8],
    mark: Mark,
    tokens: &'a [Token],
) -> Read<'a, P::Tree>
    ensures { Gives (λ x. (x.0, x.1.now)) result (reading.after_sign_at mark (P.tree_at part.now text.now) tokens.now) }
{
    let (_sign, rest) = sign(tokens, mark)?;
    part.read(alloc, text, rest)
}

/// Parts, each after a sign, behind those that are found.
#[tactic(auto, using(grammar::proofs::Loops::after_step, grammar::proofs::Loops::after_stop, grammar::proofs::Loops::after_fail, grammar::proofs::Loops::after_end))]
fn more<'a, P: Part>(
    part: &P,
    alloc: Global,
    text: &[u8],
    mark: Mark,
    tokens: &'a [Token],
    mut found: Items<P::Tree>,
) -> Read<'a, Items<P::Tree>>
    ensures { Gives (λ x. (x.0, x.1.now)) result (after found (reader.many_at kinds.sort (reading.first_sign mark) (reading.after_sign_at mark (P.tree_at part.now text.now)) tokens.now)) }
{
    let mut rest = tokens;
    for _turn in 0..tokens.len() {
        if !starts(rest, &[TokenKind::Sign(mark)]) {
            return Ok((found, rest));
        }
        let (item, left) = next(part, alloc, text, mark, rest)?;
        found.push(item)?;
        rest = left;
    }
    Ok((found, rest))
}

/// One part or more, with a sign between them.
#[tactic(auto, using(grammar::proofs::Loops::list_after), unfolding(crate::specs::Reading::separated_at))]
pub fn separated<'a, P: Part>(
    part: &P,
    alloc: Global,
    text: &[u8],
    mark: Mark,
    tokens: &'a [Token],
) -> Read<'a, Items<P::Tree>>
    ensures { Gives (λ x. (x.0, x.1.now)) result (reading.separated_at mark (P.tree_at part.now text.now) tokens.now) }
{
    let (first, rest) = part.read(alloc, text, tokens)?;
    let found = only(alloc, first)?;
    let (found, rest) = more(part, alloc, text, mark, rest, found)?;
    Ok((fitted(found), rest))
}

/// A part where the next token is one of those that begin it.
pub fn optional<'a, P: Part>(
    part: &P,
    alloc: Global,
    text: &[u8],
    among: &[TokenKind],
    tokens: &'a [Token],
) -> Read<'a, Option<P::Tree>>
    ensures { Gives (λ x. (x.0, x.1.now)) result (reader.optional_at kinds.sort (kinds.codes_of among.now) (P.tree_at part.now text.now) tokens.now) }
{
    if !starts(tokens, among) {
        return Ok((None, tokens));
    }
    let (found, rest) = part.read(alloc, text, tokens)?;
    Ok((Some(found), rest))
}

/// Parts one after the other, for as long as the next token is one of those that begin them.
#[tactic(auto, using(grammar::proofs::Loops::after_step, grammar::proofs::Loops::after_stop, grammar::proofs::Loops::after_fail, grammar::proofs::Loops::after_end, grammar::proofs::Loops::after_none))]
pub fn repeated<'a, P: Part>(
    part: &P,
    alloc: Global,
    text: &[u8],
    among: &[TokenKind],
    tokens: &'a [Token],
) -> Read<'a, Items<P::Tree>>
    ensures { Gives (λ x. (x.0, x.1.now)) result (reader.many_at kinds.sort (kinds.codes_of among.now) (P.tree_at part.now text.now) tokens.now) }
{
    let mut found = Items::new(alloc);
    let mut rest = tokens;
    for _turn in 0..tokens.len() {
        if !starts(rest, among) {
            return Ok((found, rest));
        }
        let (item, left) = part.read(alloc, text, rest)?;
        found.push(item)?;
        rest = left;
    }
    Ok((found, rest))
}

/// Parts one after the other, each of which is a list, as one list.
#[tactic(auto, using(grammar::proofs::Loops::flat_step, grammar::proofs::Loops::flat_stop, grammar::proofs::Loops::flat_fail, grammar::proofs::Loops::flat_end, grammar::proofs::Loops::flat_after_none), unfolding(crate::specs::Parts::joined_at))]
pub fn joined<'a, T: Drop, P: Part<Tree = Items<T>>>(
    part: &P,
    alloc: Global,
    text: &[u8],
    among: &[TokenKind],
    tokens: &'a [Token],
) -> Read<'a, Items<T>>
    ensures { Gives (λ x. (x.0, x.1.now)) result (parts.joined_at among.now (P.tree_at part.now text.now) tokens.now) }
{
    let mut found = Items::new(alloc);
    let mut rest = tokens;
    for _turn in 0..tokens.len() {
        if !starts(rest, among) {
            return Ok((found, rest));
        }
        let (items, left) = part.read(alloc, text, rest)?;
        found.append(items)?;
        rest = left;
    }
    Ok((found, rest))
}

/// One part or more with a sign between them, each of which is a list, as one list.
#[tactic(auto, unfolding(crate::specs::Parts::joined_list_at))]
pub fn joined_list<'a, T: Drop, P: Part<Tree = Items<T>>>(
    part: &P,
    alloc: Global,
    text: &[u8],
    mark: Mark,
    tokens: &'a [Token],
) -> Read<'a, Items<T>>
    ensures { Gives (λ x. (x.0, x.1.now)) result (parts.joined_list_at mark (P.tree_at part.now text.now) tokens.now) }
{
    let (lists, rest) = separated(part, alloc, text, mark, tokens)?;
    Ok((flattened(alloc, lists)?, rest))
}

/// Lists as one list.
#[tactic(auto, using(crate::proofs::FlatLaws::flat_last))]
fn flattened<T: Drop>(alloc: Global, lists: Items<Items<T>>) -> Result<Items<T>, Memory>
    ensures { IfOk result (λ all. all ≡ flat lists) }
{
    let mut all = Items::new(alloc);
    for list in lists.into_vec() {
        all.append(list)?;
    }
    Ok(all)
}

/// The values of a list of boxes.
fn unboxed<T: Drop>(alloc: Global, boxes: Items<Boxed<T>>) -> Result<Items<T>, Memory>
    ensures { IfOk result (λ all. all ≡ boxes) }
{
    let boxes = boxes.into_vec();
    let mut all = Items::from_vec(Vec::with_capacity(alloc, boxes.len())?);
    for each in boxes {
        all.push(each.into_inner())?;
    }
    Ok(all)
}

/// The value that is in a box, where there is one.
pub fn inside<T>(boxed: Option<Boxed<T>>) -> Option<T>
    ensures { result ≡ boxed }
{
    match boxed {
        Some(boxed) => Some(boxed.into_inner()),
        None => None,
    }
}

/// One part or more with a sign between them, of which each is read into a box: a reader whose result has the place of a large
/// tree in it is slow to check.
pub fn separated_boxes<'a, T: Drop, P: Part<Tree = Boxed<T>>>(
    part: &P,
    alloc: Global,
    text: &[u8],
    mark: Mark,
    tokens: &'a [Token],
) -> Read<'a, Items<T>>
    ensures { Gives (λ x. (x.0, x.1.now)) result (reading.separated_at mark (P.tree_at part.now text.now) tokens.now) }
{
    let (found, rest) = separated(part, alloc, text, mark, tokens)?;
    Ok((unboxed(alloc, found)?, rest))
}

/// Parts one after the other, of which each is read into a box.
pub fn repeated_boxes<'a, T: Drop, P: Part<Tree = Boxed<T>>>(
    part: &P,
    alloc: Global,
    text: &[u8],
    among: &[TokenKind],
    tokens: &'a [Token],
) -> Read<'a, Items<T>>
    ensures { Gives (λ x. (x.0, x.1.now)) result (reader.many_at kinds.sort (kinds.codes_of among.now) (P.tree_at part.now text.now) tokens.now) }
{
    let (found, rest) = repeated(part, alloc, text, among, tokens)?;
    Ok((unboxed(alloc, found)?, rest))
}
