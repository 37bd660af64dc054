//! Declarations of CIF sources as they are printed.

use crate::expressions::put_name;
use case_text::Put;
use cif_ast::{Chan, Class, Decl, Expr, Inv, Name, Param, TypeUse};

fn class_word(class: Class) -> &'static str {
    match class {
        Class::Plain => "event",
        Class::Con => "controllable",
        Class::Unc => "uncontrollable",
    }
}

/// The word of a declaration; a `=` behind it where it may have a value and has one.
pub fn decl_word(decl: &Decl) -> &'static str {
    match decl {
        Decl::TypeName { .. } => "type",
        Decl::Enum { .. } => "enum",
        Decl::Event { class, .. } => class_word(*class),
        Decl::Const { .. } => "const",
        Decl::Alg { value: None, .. } => "alg",
        Decl::Alg { value: Some(_), .. } => "alg=",
        Decl::Input { .. } => "input",
        Decl::Disc { value: None, .. } => "disc",
        Decl::Disc { value: Some(_), .. } => "disc=",
        Decl::Equation { .. } => "equation",
        Decl::Inv(Inv::State(_)) => "state",
        Decl::Inv(Inv::Needs { .. }) => "needs",
        Decl::Inv(Inv::Disables { .. }) => "disables",
        Decl::Marked(_) => "marked",
    }
}

/// The words of declarations.
pub fn put_decls(page: &mut String, decls: &[Decl]) -> Put {
    if decls.is_empty() {
        page.push_str("none")?;
    }
    let mut gap = "";
    for decl in decls {
        page.push_str(gap)?;
        page.push_str(decl_word(decl))?;
        gap = " ";
    }
    Ok(())
}

/// The type of a declaration that has one, or that is sent along its event.
fn type_of(decl: &Decl) -> Option<&TypeUse> {
    match decl {
        Decl::TypeName { ty, .. } => Some(ty),
        Decl::Const { ty, .. } => Some(ty),
        Decl::Alg { ty, .. } => Some(ty),
        Decl::Input { ty, .. } => Some(ty),
        Decl::Disc { ty, .. } => Some(ty),
        Decl::Event {
            chan: Chan::Of(ty),
            ..
        } => Some(ty),
        _ => None,
    }
}

/// A type, with the places of its bounds.
fn put_type(page: &mut String, ty: Option<&TypeUse>) -> Put {
    match ty {
        None => page.push_str("no type"),
        Some(TypeUse::Bool) => page.push_str("bool"),
        Some(TypeUse::Int) => page.push_str("int"),
        Some(TypeUse::Range(lower, upper)) => {
            let (lower, upper) = (lower.at, upper.at);
            write!(page, "int[@{lower}..@{upper}]")
        }
        Some(TypeUse::Named(name)) => put_name(page, name),
    }
}

/// The words and the types of declarations.
pub fn put_types(page: &mut String, decls: &[Decl]) -> Put {
    let mut gap = "";
    for decl in decls {
        page.push_str(gap)?;
        page.push_str(decl_word(decl))?;
        page.push(' ')?;
        put_type(page, type_of(decl))?;
        gap = ", ";
    }
    Ok(())
}

/// The places of the predicates of invariants and of their events.
pub fn put_events(page: &mut String, decls: &[Decl]) -> Put {
    let mut gap = "";
    for decl in decls {
        page.push_str(gap)?;
        put_invariant(page, decl)?;
        gap = ", ";
    }
    Ok(())
}

fn put_invariant(page: &mut String, decl: &Decl) -> Put {
    match decl {
        Decl::Inv(Inv::State(p)) => put_predicate(page, p, &[]),
        Decl::Inv(Inv::Needs { events, p }) => put_predicate(page, p, events.as_slice()),
        Decl::Inv(Inv::Disables { p, events }) => put_predicate(page, p, events.as_slice()),
        _ => page.push_str("no invariant"),
    }
}

fn put_predicate(page: &mut String, p: &Expr, events: &[Name]) -> Put {
    let at = p.at;
    write!(page, "predicate@{at}")?;
    for event in events {
        page.push(' ')?;
        put_name(page, event)?;
    }
    Ok(())
}

/// The word of a parameter.
pub fn put_param(page: &mut String, param: &Param) -> Put {
    match param {
        Param::Event { class, .. } => page.push_str(class_word(*class)),
        Param::Alg { .. } => page.push_str("alg"),
        Param::Location { .. } => page.push_str("location"),
    }
}
