//! Cases of the readers that take parts from the front of a CIF source.

use crate::declarations::{put_decls, put_events, put_param, put_types};
use crate::expressions::put_shape;
use case_text::{Fault, Fields, Put};
use cif_ast::{Decl, Expr, Param};
use cif_base::Items;
use cif_lex::{Token, TokenKind, lex};
use cif_parse_decl::{declaration, given, is_component, parameters};
use cif_parse_expr::{Read, ReadError, expr};
use std::alloc::Global;

/// The most bytes of a source.
const MOST_BYTES: usize = 4_194_304;

/// A case of a reader: what it answers for the tokens of a text.
pub fn front_case(call: &str, fields: &Fields<'_>, page: &mut String) -> Result<(), Fault> {
    let text = fields.text()?;
    put_front(fields.alloc, page, call, text.as_slice())
}

fn put_front(alloc: Global, page: &mut String, call: &str, text: &[u8]) -> Result<(), Fault> {
    if text.len() > MOST_BYTES {
        return Ok(page.push_str("  too long\n")?);
    }
    match lex(alloc, text) {
        Ok(tokens) => put_answer(alloc, page, call, text, tokens.as_slice()),
        Err(error) => Ok(writeln!(page, "  {error:?}")?),
    }
}

fn put_answer(
    alloc: Global,
    page: &mut String,
    call: &str,
    text: &[u8],
    tokens: &[Token],
) -> Result<(), Fault> {
    match call {
        "lex" => put_tokens(page, tokens),
        "expr" => put_expr(alloc, page, text, tokens),
        "component" => put_component(page, is_component(tokens)),
        "parameters" => put_parameters(alloc, page, parameters(alloc, text, tokens)),
        _ => put_declared(page, call, declaration(alloc, text, tokens)),
    }
}

fn put_token(page: &mut String, token: &Token) -> Put {
    let span = token.span;
    match token.kind {
        TokenKind::Id => page.push_str("Id")?,
        TokenKind::Number => page.push_str("Number")?,
        TokenKind::Sign(mark) => write!(page, "{mark:?}")?,
        TokenKind::Reserved(word) => write!(page, "{word:?}")?,
    }
    write!(page, " {}..{}", span.from, span.to)
}

/// `lex TEXT`: the tokens with their places.
fn put_tokens(page: &mut String, tokens: &[Token]) -> Result<(), Fault> {
    if tokens.is_empty() {
        page.push_str("  no tokens")?;
    }
    let mut gap = "  ";
    for token in tokens {
        page.push_str(gap)?;
        put_token(page, token)?;
        gap = ", ";
    }
    Ok(page.push('\n')?)
}

/// How many tokens are left.
fn put_left(page: &mut String, rest: &[Token]) -> Result<(), Fault> {
    let left = rest.len();
    Ok(writeln!(page, "; {left} left")?)
}

/// The token at which nothing is read, by how many there are from it on.
fn put_stop(page: &mut String, error: ReadError) -> Result<(), Fault> {
    Ok(writeln!(page, "  {error:?}")?)
}

/// `expr TEXT`: the form of the expression at the front, and of how many further parts it is a list.
fn put_expr(alloc: Global, page: &mut String, text: &[u8], tokens: &[Token]) -> Result<(), Fault> {
    match expr(alloc, text, tokens) {
        Ok((tree, rest)) => put_tree(page, tree.get(), rest),
        Err(error) => put_stop(page, error),
    }
}

fn put_tree(page: &mut String, tree: &Expr, rest: &[Token]) -> Result<(), Fault> {
    page.push_str("  ")?;
    put_shape(page, tree)?;
    put_left(page, rest)
}

/// `declaration TEXT`, `types TEXT`, `events TEXT`: a declaration, as one for each of its names.
fn put_declared(page: &mut String, call: &str, read: Read<'_, Items<Decl>>) -> Result<(), Fault> {
    match read {
        Ok((found, rest)) => put_found(page, call, found.as_slice(), rest),
        Err(error) => put_stop(page, error),
    }
}

/// The words of declarations, these with their types, or where the predicate and the events of each invariant stand.
fn put_found(page: &mut String, call: &str, found: &[Decl], rest: &[Token]) -> Result<(), Fault> {
    page.push_str("  ")?;
    match call {
        "declaration" => put_decls(page, found)?,
        "types" => put_types(page, found)?,
        _ => put_events(page, found)?,
    }
    put_left(page, rest)
}

/// `component TEXT`: whether a component begins.
fn put_component(page: &mut String, begins: bool) -> Result<(), Fault> {
    Ok(page.push_str(if begins { "  yes\n" } else { "  no\n" })?)
}

/// `parameters TEXT`: parameters in parentheses.
fn put_parameters(
    alloc: Global,
    page: &mut String,
    read: Read<'_, Items<Param>>,
) -> Result<(), Fault> {
    match read {
        Ok((found, rest)) => put_params(page, given(alloc, Some(found)).as_slice(), rest),
        Err(error) => put_stop(page, error),
    }
}

fn put_params(page: &mut String, params: &[Param], rest: &[Token]) -> Result<(), Fault> {
    page.push_str(if params.is_empty() { "  none" } else { "  " })?;
    let mut gap = "";
    for param in params {
        page.push_str(gap)?;
        put_param(page, param)?;
        gap = " ";
    }
    put_left(page, rest)
}
