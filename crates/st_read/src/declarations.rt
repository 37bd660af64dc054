//! Declarations of variables.

ghost use Rattle.std.specs.Prelude.{◌≡◌, map};
ghost use Rattle.st_ast.specs.Grammar as grammar;
ghost use Rattle.grammar.specs.Loops.{after};
ghost use Rattle.grammar.specs.Reader as reader;
ghost use Rattle.st_read.specs.Gives.{Gives};
ghost use Rattle.st_read.specs.Reading as reading;

use crate::names::{identifier, natural};
use crate::tokens::{Read, Tokens, starts, word};
use cif_base::Items;
use st_ast::{StClass, StLit, StTy, StVar, TokenKind};
use std::alloc::Global;

/// A number, perhaps with a sign before it.
#[tactic(auto, unfolding(crate::specs::Reading::signed_at))]
fn signed(tokens: Tokens<'_>) -> Read<'_, i64>
    ensures { Gives (λ x. (x.0, x.1)) result (reading.signed_at tokens.entry) }
{
    if starts(&tokens, &[TokenKind::Dash]) {
        let (_dash, rest) = word(tokens, TokenKind::Dash)?;
        let (value, rest) = natural(rest)?;
        Ok((-(value as i64), rest))
    } else {
        let (value, rest) = natural(tokens)?;
        Ok((value as i64, rest))
    }
}

#[tactic(auto, unfolding(crate::specs::Reading::first_value_at))]
fn first_value(tokens: Tokens<'_>) -> Read<'_, StLit>
    ensures { Gives (λ x. (x.0, x.1)) result (reading.first_value_at tokens.entry) }
{
    if starts(&tokens, &[TokenKind::True]) {
        let (_true, rest) = word(tokens, TokenKind::True)?;
        Ok((StLit::Bool(true), rest))
    } else if starts(&tokens, &[TokenKind::False]) {
        let (_false, rest) = word(tokens, TokenKind::False)?;
        Ok((StLit::Bool(false), rest))
    } else {
        let (value, rest) = signed(tokens)?;
        Ok((StLit::Int(value), rest))
    }
}

/// `LINT`, perhaps with the bounds of a subrange.
#[tactic(auto, unfolding(crate::specs::Reading::subrange_at))]
fn integer_type(tokens: Tokens<'_>) -> Read<'_, StTy>
    ensures { Gives (λ x. (x.0, x.1)) result (reader.map_at reading.number_type (reader.both_at (reading.word_at TokenKind.Lint) reading.subrange_at) tokens.entry) }
{
    let (_lint, rest) = word(tokens, TokenKind::Lint)?;
    if !starts(&rest, &[TokenKind::Open]) {
        return Ok((StTy::Lint, rest));
    }
    let (_open, rest) = word(rest, TokenKind::Open)?;
    let (lo, rest) = signed(rest)?;
    let (_dots, rest) = word(rest, TokenKind::Dots)?;
    let (hi, rest) = signed(rest)?;
    let (_close, rest) = word(rest, TokenKind::Close)?;
    Ok((StTy::Range { lo, hi }, rest))
}

#[tactic(auto, unfolding(crate::specs::Reading::type_at))]
fn type_use(tokens: Tokens<'_>) -> Read<'_, StTy>
    ensures { Gives (λ x. (x.0, x.1)) result (reading.type_at tokens.entry) }
{
    if starts(&tokens, &[TokenKind::Bool]) {
        let (_bool, rest) = word(tokens, TokenKind::Bool)?;
        Ok((StTy::Bool, rest))
    } else {
        integer_type(tokens)
    }
}

/// The sign `:=` and the first value, where they come.
#[tactic(auto, unfolding(crate::specs::Reading::init_at))]
fn init(tokens: Tokens<'_>) -> Read<'_, Option<StLit>>
    ensures { Gives (λ x. (x.0, x.1)) result (reading.init_at tokens.entry) }
{
    if !starts(&tokens, &[TokenKind::Assigns]) {
        return Ok((None, tokens));
    }
    let (_assigns, rest) = word(tokens, TokenKind::Assigns)?;
    let (value, rest) = first_value(rest)?;
    Ok((Some(value), rest))
}

/// A declaration in a block of that class.
#[tactic(auto, unfolding(crate::specs::Reading::declaration_at))]
fn declaration(alloc: Global, tokens: Tokens<'_>, class: StClass) -> Read<'_, StVar>
    ensures { Gives (λ x. (x.0, x.1)) result (reading.declaration_at class tokens.entry) }
{
    let (name, rest) = identifier(alloc, tokens)?;
    let (_colon, rest) = word(rest, TokenKind::Colon)?;
    let (ty, rest) = type_use(rest)?;
    let (init, rest) = init(rest)?;
    let (_semicolon, rest) = word(rest, TokenKind::Semicolon)?;
    let variable = StVar {
        name,
        class,
        ty,
        init,
        at: None,
    };
    Ok((variable, rest))
}

#[tactic(auto, using(grammar::proofs::Loops::after_step, grammar::proofs::Loops::after_stop, grammar::proofs::Loops::after_fail, grammar::proofs::Loops::after_end))]
fn declarations(
    alloc: Global,
    tokens: Tokens<'_>,
    class: StClass,
    mut found: Items<StVar>,
) -> Read<'_, Items<StVar>>
    ensures { Gives (λ x. (x.0, x.1)) result (after found (reader.many_at grammar.sort (reading.first TokenKind.Name) (reading.declaration_at class) tokens.entry)) }
{
    let most = tokens.len();
    let mut rest = tokens;
    for _turn in 0..most {
        if !starts(&rest, &[TokenKind::Name]) {
            return Ok((found, rest));
        }
        let (item, left) = declaration(alloc, rest, class)?;
        found.push(item)?;
        rest = left;
    }
    Ok((found, rest))
}

/// A block after its first word, and its class.
#[tactic(auto, using(grammar::proofs::Loops::after_none), unfolding(crate::specs::Reading::rest_at))]
fn rest_of(alloc: Global, tokens: Tokens<'_>, class: StClass) -> Read<'_, Items<StVar>>
    ensures { Gives (λ x. (x.0, x.1)) result (reading.rest_at class tokens.entry) }
{
    let (found, rest) = declarations(alloc, tokens, class, Items::new(alloc))?;
    let (_end, rest) = word(rest, TokenKind::EndVar)?;
    Ok((found, rest))
}

/// A block that begins with that word, and its class.
#[tactic(auto, unfolding(crate::specs::Reading::block_of_at))]
fn block_of(
    alloc: Global,
    tokens: Tokens<'_>,
    opening: TokenKind,
    class: StClass,
) -> Read<'_, Items<StVar>>
    ensures { Gives (λ x. (x.0, x.1)) result (reading.block_of_at opening class tokens.entry) }
{
    let (_opening, rest) = word(tokens, opening)?;
    rest_of(alloc, rest, class)
}

/// What stands after `VAR`: `CONSTANT` and constants, or variables.
#[tactic(auto, unfolding(crate::specs::Reading::plain_at))]
fn plain(alloc: Global, tokens: Tokens<'_>) -> Read<'_, Items<StVar>>
    ensures { Gives (λ x. (x.0, x.1)) result (reading.plain_at tokens.entry) }
{
    if starts(&tokens, &[TokenKind::Constant]) {
        block_of(alloc, tokens, TokenKind::Constant, StClass::Constant)
    } else {
        rest_of(alloc, tokens, StClass::Plain)
    }
}

#[tactic(auto, unfolding(crate::specs::Reading::block_at))]
fn block(alloc: Global, tokens: Tokens<'_>) -> Read<'_, Items<StVar>>
    ensures { Gives (λ x. (x.0, x.1)) result (reading.block_at tokens.entry) }
{
    if starts(&tokens, &[TokenKind::Var]) {
        let (_var, rest) = word(tokens, TokenKind::Var)?;
        plain(alloc, rest)
    } else if starts(&tokens, &[TokenKind::VarInput]) {
        block_of(alloc, tokens, TokenKind::VarInput, StClass::Input)
    } else {
        block_of(alloc, tokens, TokenKind::VarOutput, StClass::Output)
    }
}

/// The declarations of all blocks as one list.
#[tactic(auto, using(grammar::proofs::Loops::flat_step, grammar::proofs::Loops::flat_stop, grammar::proofs::Loops::flat_fail, grammar::proofs::Loops::flat_end), unfolding(crate::specs::Reading::variables_at))]
pub fn variables(alloc: Global, tokens: Tokens<'_>) -> Read<'_, Items<StVar>>
    ensures { Gives (λ x. (x.0, x.1)) result (reading.variables_at tokens.entry) }
{
    let mut found = Items::new(alloc);
    let most = tokens.len();
    let mut rest = tokens;
    for _turn in 0..most {
        if !starts(
            &rest,
            &[TokenKind::Var, TokenKind::VarInput, TokenKind::VarOutput],
        ) {
            return Ok((found, rest));
        }
        let (more, left) = block(alloc, rest)?;
        found.append(more)?;
        rest = left;
    }
    Ok((found, rest))
}
