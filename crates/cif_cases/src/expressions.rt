//! Expressions and names of CIF sources as they are printed.

use case_text::{Put, put_text};
use cif_ast::{Expr, Form, Name};

/// The byte where a name begins, and its identifiers, each with the byte where it begins.
pub fn put_name(page: &mut String, name: &Name) -> Put {
    let at = name.at;
    write!(page, "{at}:")?;
    let mut gap = if name.from_root { "." } else { "" };
    for part in name.parts.as_slice() {
        page.push_str(gap)?;
        put_text(page, part.text.as_slice())?;
        let at = part.at;
        write!(page, "@{at}")?;
        gap = ".";
    }
    Ok(())
}

/// The name of a form, and of how many further parts it is a list.
fn shape(form: &Form) -> (&'static str, usize) {
    match form {
        Form::Bool(_) => ("Bool", 0),
        Form::Int(_) => ("Int", 0),
        Form::Named(name) => ("Named", name.parts.len()),
        Form::Received => ("Received", 0),
        Form::Paren(_) => ("Paren", 0),
        Form::Neg(_) => ("Neg", 0),
        Form::Plus(_) => ("Plus", 0),
        Form::Not(_) => ("Not", 0),
        Form::Abs(_) => ("Abs", 0),
        Form::Min(_, _) => ("Min", 0),
        Form::Max(_, _) => ("Max", 0),
        Form::Sum { rest, .. } => ("Sum", rest.len()),
        Form::Product { rest, .. } => ("Product", rest.len()),
        Form::Compare { .. } => ("Compare", 0),
        Form::And(all) => ("And", all.len()),
        Form::Or(all) => ("Or", all.len()),
        Form::Implies(_, _) => ("Implies", 0),
        Form::Iff(_, _) => ("Iff", 0),
        Form::If { branches, .. } => ("If", branches.len()),
    }
}

/// The form of an expression.
pub fn put_shape(page: &mut String, expr: &Expr) -> Put {
    let (name, count) = shape(&expr.form);
    write!(page, "{name} {count}")
}
