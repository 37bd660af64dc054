//! From the bytes of a source to its net.

ghost use Rattle.std.specs.Prelude.{◌≡◌, ◌≤◌, ◌+◌, ◌<◌, ◌^◌, true, length, IfOk, IfErr};
ghost use Rattle.cif_lex.specs.Tokens.{Tokens};
ghost use Rattle.cif_ast.specs.Countable.{IsCountable};
ghost use Rattle.cif_ast.specs.SmallNumbers.{HasSmallNumbers};
ghost use Rattle.cif_parse.specs.Grammar.{Reads};
ghost use Rattle.cif_front.specs.Dues.{IsDue};
ghost use Rattle.cif_front.specs.Loads.{Loads};
ghost use Rattle.cif_front.specs.Paths.{NamesIn, NamesNothing};

use crate::building::build;
use crate::error::{LoadErr, Unloaded};
use cif_ast::Spec;
use cif_lex::{Token, lex};
use cif_net::Guarded;
use cif_parse::parse;
use std::alloc::Global;

/// The tokens of a text.
fn tokens_of(alloc: Global, text: &[u8]) -> Result<Vec<Token>, LoadErr>
    requires { length text.now ≤ 4194304 }
    ensures tokens { IfOk result (λ tokens. Tokens text.now tokens.items) }
    ensures refused { IfErr result (λ e. IsDue text.now e) }
    ensures silent { IfErr result NamesNothing }
{
    Ok(lex(alloc, text)?)
}

/// The tree of a text, by its tokens.
fn tree_by(alloc: Global, text: &[u8], tokens: &[Token]) -> Result<Spec, LoadErr>
    requires short { length text.now ≤ 4194304 }
    requires tokens { Tokens text.now tokens.now }
    ensures tree { IfOk result (λ spec. Reads text.now spec) }
    ensures countable { IfOk result IsCountable }
    ensures small { IfOk result HasSmallNumbers }
    ensures refused { IfErr result (λ e. IsDue text.now e) }
    ensures silent { IfErr result NamesNothing }
{
    Ok(parse(alloc, text, tokens)?)
}

/// The tree of a text.
fn tree_of(alloc: Global, text: &[u8]) -> Result<Spec, LoadErr>
    requires { length text.now ≤ 4194304 }
    ensures tree { IfOk result (λ spec. Reads text.now spec) }
    ensures countable { IfOk result IsCountable }
    ensures small { IfOk result HasSmallNumbers }
    ensures refused { IfErr result (λ e. IsDue text.now e) }
    ensures silent { IfErr result NamesNothing }
{
    let tokens = tokens_of(alloc, text)?;
    tree_by(alloc, text, tokens.as_slice())
}

/// The net that a source stands for, with the choices of all events and with algebraic variables replaced by their definitions, or why
/// there is none, with the path of an algebraic variable that depends on itself: the first phase that refuses something tells it. The
/// time is linear in the text and in the net and its choices.
pub fn load_named(alloc: Global, text: &[u8]) -> Result<Guarded, Unloaded>
    requires { length text.now ≤ 4194304 }
    ensures loads { IfOk result (λ g. Loads text.now g) }
    ensures refused { IfErr result (λ e. IsDue text.now e.why) }
    ensures named { IfErr result (λ e. NamesIn text.now e.why e.path) }
{
    match tree_of(alloc, text) {
        Ok(spec) => build(alloc, &spec),
        Err(why) => Err(Unloaded::plain(alloc, why)),
    }
}

/// The net that a source stands for, as `load_named` gives it, or why there is none.
pub fn load(alloc: Global, text: &[u8]) -> Result<Guarded, LoadErr>
    requires { length text.now ≤ 4194304 }
    ensures loads { IfOk result (λ g. Loads text.now g) }
    ensures refused { IfErr result (λ e. IsDue text.now e) }
{
    match load_named(alloc, text) {
        Ok(net) => Ok(net),
        Err(refused) => Err(refused.why),
    }
}
