//! Cases of the scopes of a CIF source.

use crate::sources::{put_no_tree, spec_of};
use case_text::{Fault, Fields, Put, first_word, number};
use cif_ast::{Decl, Form, Item, Name, Spec};
use cif_resolve::resolve;
use cif_scope::{Found, Scopes, number_scopes};
use std::alloc::Global;

fn put_counts(page: &mut String, scopes: &Scopes) -> Put {
    page.push(' ')?;
    for body in 0..scopes.bodies() {
        let count = scopes.slots(body);
        write!(page, " {count}")?;
    }
    page.push('\n')
}

fn put_scopes(alloc: Global, page: &mut String, spec: &Spec, resolves: bool) -> Put {
    let answer = if resolves {
        resolve(alloc, spec)
    } else {
        number_scopes(alloc, spec)
    };
    match answer {
        Err(error) => writeln!(page, "  {error:?}"),
        Ok(scopes) => put_counts(page, &scopes),
    }
}

/// `scopes TEXT`: how many names the scope of each body declares, in text order. `resolve TEXT`: the same where the source keeps all
/// rules on scopes.
pub fn scopes_case(call: &str, fields: &Fields<'_>, page: &mut String) -> Result<(), Fault> {
    let text = fields.text()?;
    match spec_of(fields.alloc, text.as_slice()) {
        Err(why) => put_no_tree(page, why),
        Ok(spec) => Ok(put_scopes(fields.alloc, page, &spec, call == "resolve")?),
    }
}

fn put_found(page: &mut String, found: &Found) -> Put {
    page.push(' ')?;
    for passed in found.through.as_slice() {
        let (body, slot) = (passed.body, passed.slot);
        write!(page, " {body}:{slot}")?;
    }
    let (body, slot) = (found.body, found.slot);
    writeln!(page, " {body}:{slot}")
}

/// What a name finds in a body.
fn put_sought(
    alloc: Global,
    page: &mut String,
    scopes: &Scopes,
    body: u32,
    name: &Name,
) -> Result<(), Fault> {
    if body >= scopes.bodies() {
        return Err(Fault::Form("no such body"));
    }
    match scopes.find(alloc, body, name)? {
        None => Ok(page.push_str("  nothing\n")?),
        Some(found) => Ok(put_found(page, &found)?),
    }
}

/// The name that an algebraic variable is defined by.
fn name_of(items: &[Item]) -> Option<&Name> {
    let [Item::Decl(Decl::Alg { value, .. })] = items else {
        return None;
    };
    match &value.as_ref()?.form {
        Form::Named(name) => Some(name),
        _ => None,
    }
}

/// What the name that the tree `asked` has as a value finds in a body of another tree.
fn put_find(
    alloc: Global,
    page: &mut String,
    spec: &Spec,
    body: u32,
    asked: &Spec,
) -> Result<(), Fault> {
    let Some(name) = name_of(asked.items.as_slice()) else {
        return Err(Fault::Form("no name"));
    };
    match number_scopes(alloc, spec) {
        Err(error) => Ok(writeln!(page, "  {error:?}")?),
        Ok(scopes) => put_sought(alloc, page, &scopes, body, name),
    }
}

/// `find BODY NAME | TEXT`: the instances that the name passes in the body with this number, and what it finds, each as the number of
/// a body and that of a name of its scope.
pub fn find_case(fields: &Fields<'_>, page: &mut String) -> Result<(), Fault> {
    let (body, name) = first_word(fields.written(0));
    let body = number(body)?;
    let asked = format!(in fields.alloc; "alg bool x = {name};")?;
    let text = fields.bytes_of(fields.written(1))?;
    match (
        spec_of(fields.alloc, text.as_slice()),
        spec_of(fields.alloc, asked.as_bytes()),
    ) {
        (Ok(spec), Ok(asked)) => put_find(fields.alloc, page, &spec, body, &asked),
        (Err(why), _) | (_, Err(why)) => put_no_tree(page, why),
    }
}
