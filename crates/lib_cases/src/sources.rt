//! Cases of a CIF source whose names keep their rules.

ghost use Rattle.std.specs.Prelude.{IfOk};
ghost use Rattle.cif_ast.specs.Countable.{IsCountable};
ghost use Rattle.cif_scope.specs.Scopes.{AreScopesOf};
ghost use Rattle.cif_source.specs.Source.{source_of};

use crate::numbers::put_numbered;
use crate::parameters::put_fitting;
use crate::rules::{put_rules, put_value};
use case_text::{Fault, Fields};
use cif_ast::Spec;
use cif_lex::lex;
use cif_parse::parse;
use cif_resolve::resolve;
use cif_scope::Scopes;
use std::alloc::Global;

/// The most bytes of a source.
const MOST_BYTES: usize = 4_194_304;

/// The tree of a text.
pub fn tree_of(alloc: Global, text: &[u8]) -> Result<Spec, Fault>
    ensures { IfOk result IsCountable }
{
    if text.len() > MOST_BYTES {
        return Err(Fault::Form("a source has at most 4194304 bytes"));
    }
    let Ok(tokens) = lex(alloc, text) else {
        return Err(Fault::Form("no tokens"));
    };
    match parse(alloc, text, tokens.as_slice()) {
        Ok(spec) => Ok(spec),
        Err(_) => Err(Fault::Form("no tree")),
    }
}

/// A case of a whole source, or the rule on scopes that it breaks.
pub fn source_case(call: &str, fields: &Fields<'_>, page: &mut String) -> Result<(), Fault> {
    let text = fields.text()?;
    let spec = tree_of(fields.alloc, text.as_slice())?;
    match resolve(fields.alloc, &spec) {
        Err(error) => Ok(writeln!(page, "  {error:?}")?),
        Ok(scopes) => put_source(fields.alloc, page, call, &spec, &scopes),
    }
}

fn put_source(
    alloc: Global,
    page: &mut String,
    call: &str,
    spec: &Spec,
    scopes: &Scopes,
) -> Result<(), Fault>
    requires countable { IsCountable spec.now }
    requires scopes { AreScopesOf (source_of spec.now) scopes.now }
{
    match call {
        "rules" => put_rules(alloc, page, spec, scopes),
        "value" => put_value(page, spec, scopes),
        "kinds" | "parameters" => put_fitting(alloc, page, call, spec, scopes),
        _ => put_numbered(alloc, page, call, spec, scopes),
    }
}
