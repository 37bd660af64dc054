//! Cases of the rules on what the bodies of a source declare and assign, and of the values of constants.

ghost use Rattle.cif_ast.specs.Countable.{IsCountable};
ghost use Rattle.cif_scope.specs.Scopes.{AreScopesOf};
ghost use Rattle.cif_source.specs.Source.{source_of};

use case_text::{Fault, Put, put_text};
use cif_ast::{Decl, Expr, Item, Spec};
use cif_base::{Items, Text};
use cif_inst_constants::{NameValues, evaluate};
use cif_scope::Scopes;
use cif_types_constancy::check_constancy;
use cif_types_equations::check_equations;
use cif_types_kinds::Kind;
use cif_types_table::kind_table;
use cif_types_targets::check_targets;
use std::alloc::Global;

/// The kinds of the names of each body.
fn put_kinds(page: &mut String, kinds: &[Items<Kind>]) -> Put {
    for of_body in kinds {
        page.push_str("  kinds")?;
        for kind in of_body.as_slice() {
            write!(page, " {kind:?}")?;
        }
        page.push('\n')?;
    }
    Ok(())
}

/// The lists of literals, by their numbers.
fn put_lists(page: &mut String, lists: &[Items<Text>]) -> Put {
    for literals in lists {
        page.push_str("  literals")?;
        for literal in literals.as_slice() {
            page.push(' ')?;
            put_text(page, literal.as_slice())?;
        }
        page.push('\n')?;
    }
    Ok(())
}

/// `rules TEXT`: what the rules on constants, on assigned variables and on definitions of algebraic variables say of a source, and the
/// kind of each name of each of its bodies.
pub fn put_rules(
    alloc: Global,
    page: &mut String,
    spec: &Spec,
    scopes: &Scopes,
) -> Result<(), Fault>
    requires countable { IsCountable spec.now }
    requires scopes { AreScopesOf (source_of spec.now) scopes.now }
{
    let constancy = check_constancy(alloc, spec, scopes);
    writeln!(page, "  constants {constancy:?}")?;
    let targets = check_targets(alloc, spec, scopes);
    writeln!(page, "  targets {targets:?}")?;
    let equations = check_equations(alloc, spec);
    writeln!(page, "  equations {equations:?}")?;
    let table = kind_table(alloc, spec, scopes)?;
    put_kinds(page, table.kinds.as_slice())?;
    Ok(put_lists(page, table.lists.as_slice())?)
}

/// The value of the last declaration, a constant.
pub fn constant_of(items: &[Item]) -> Option<&Expr> {
    match items.last()? {
        Item::Decl(Decl::Const { value, .. }) => Some(value),
        _ => None,
    }
}

/// `value TEXT`: the value of the constant that a source declares last, in which each name has the value 0.
pub fn put_value(page: &mut String, spec: &Spec, scopes: &Scopes) -> Result<(), Fault> {
    let Some(expr) = constant_of(spec.items.as_slice()) else {
        return Err(Fault::Form("no constant"));
    };
    let names = NameValues {
        scopes,
        numbers: &[],
        values: &[],
        body: 0,
    };
    let value = evaluate(expr, &names);
    Ok(writeln!(page, "  {value:?}")?)
}
