//! The declarations of a body, the types that it writes, and the values of its constants and variables.

ghost use Rattle.std.specs.Prelude.{◌≡◌, ◌++◌, map, flat_map, IfOk, OnOk};
ghost use Rattle.cif_ast.specs.View.{view_item, view_items};
ghost use Rattle.cif_source.specs.Source.{channel_tree, decl_tree, param_tree, source_item, source_items, list_of_items};
ghost use Rattle.cif_source.specs.Objects.{item_decls, decls_in};
ghost use Rattle.cif_source.specs.Constants.{channel_types, param_types, decl_types, decl_constants};
ghost use Rattle.cif_scope.specs.Written.{body_of_written};
ghost use Rattle.cif_types_constancy.specs.Collected.{decl_of, type_of, typed_of, types_in, values_in};

use cif_ast::{Chan, Decl, Expr, Item, Param, TypeUse};
use cif_base::Memory;
use cif_scope::{Inside, Written};
use std::alloc::Global;

/// The value of a constant, or the first value of a variable, and its type.
#[derive(Clone, Copy, Drop)]
pub struct Typed<'a> {
    pub ty: &'a TypeUse,
    pub value: &'a Expr,
}

fn add_item_decl<'a>(item: &'a Item, found: &mut Vec<&'a Decl>) -> Result<(), Memory>
    ensures { OnOk result (map decl_of found.new.items
        ≡ map decl_of found.old.items ++ item_decls (source_item (view_item item.now))) }
{
    match item {
        Item::Decl(decl) => Ok(found.push(decl)?),
        Item::Comp(_) | Item::Def(_) | Item::Inst(_) => Ok(()),
    }
}

fn add_item_decls<'a>(items: &'a [Item], found: &mut Vec<&'a Decl>) -> Result<(), Memory>
    ensures { OnOk result (map decl_of found.new.items
        ≡ map decl_of found.old.items ++ flat_map item_decls (list_of_items (source_items (view_items items.now)))) }
{
    for item in items {
        add_item_decl(item, found)?;
    }
    Ok(())
}

fn add_own_decls<'a>(decls: &'a [Decl], found: &mut Vec<&'a Decl>) -> Result<(), Memory>
    ensures { OnOk result (map decl_of found.new.items ≡ map decl_of found.old.items ++ map decl_tree decls.now) }
{
    for decl in decls {
        found.push(decl)?;
    }
    Ok(())
}

/// The declarations of a body.
pub fn body_decls<'a>(alloc: Global, body: Written<'a>) -> Result<Vec<&'a Decl>, Memory>
    ensures { IfOk result (λ all. map decl_of all.items ≡ decls_in (body_of_written body.entry).body) }
{
    let mut found = Vec::new(alloc);
    match body.inside {
        Inside::Group(items) => add_item_decls(items, &mut found)?,
        Inside::Automaton(automaton) => add_own_decls(automaton.decls.as_slice(), &mut found)?,
    }
    Ok(found)
}

fn add_channel_type<'a>(chan: &'a Chan, found: &mut Vec<&'a TypeUse>) -> Result<(), Memory>
    ensures { OnOk result (map type_of found.new.items ≡ map type_of found.old.items ++ channel_types (channel_tree chan.now)) }
{
    match chan {
        Chan::No | Chan::Void => Ok(()),
        Chan::Of(ty) => Ok(found.push(ty)?),
    }
}

fn add_param_type<'a>(param: &'a Param, found: &mut Vec<&'a TypeUse>) -> Result<(), Memory>
    ensures { OnOk result (map type_of found.new.items ≡ map type_of found.old.items ++ param_types (param_tree param.now)) }
{
    match param {
        Param::Event { chan, .. } => add_channel_type(chan, found),
        Param::Alg { ty, name: _ } => Ok(found.push(ty)?),
        Param::Location { .. } => Ok(()),
    }
}

fn add_decl_type<'a>(decl: &'a Decl, found: &mut Vec<&'a TypeUse>) -> Result<(), Memory>
    ensures { OnOk result (map type_of found.new.items ≡ map type_of found.old.items ++ decl_types (decl_tree decl.now)) }
{
    match decl {
        Decl::TypeName { ty, .. }
        | Decl::Const { ty, .. }
        | Decl::Alg { ty, .. }
        | Decl::Input { ty, .. }
        | Decl::Disc { ty, .. } => Ok(found.push(ty)?),
        Decl::Event { chan, .. } => add_channel_type(chan, found),
        Decl::Enum { .. } | Decl::Equation { .. } | Decl::Inv(_) | Decl::Marked(_) => Ok(()),
    }
}

fn add_param_types<'a>(params: &'a [Param], found: &mut Vec<&'a TypeUse>) -> Result<(), Memory>
    ensures { OnOk result (map type_of found.new.items
        ≡ map type_of found.old.items ++ flat_map param_types (map param_tree params.now)) }
{
    for param in params {
        add_param_type(param, found)?;
    }
    Ok(())
}

fn add_decl_types<'a>(decls: &[&'a Decl], found: &mut Vec<&'a TypeUse>) -> Result<(), Memory>
    ensures { OnOk result (map type_of found.new.items
        ≡ map type_of found.old.items ++ flat_map decl_types (map decl_of decls.now)) }
{
    for decl in decls {
        add_decl_type(decl, found)?;
    }
    Ok(())
}

/// The types that a body writes, those of its parameters too.
pub fn body_types<'a>(alloc: Global, body: Written<'a>) -> Result<Vec<&'a TypeUse>, Memory>
    ensures { IfOk result (λ all. map type_of all.items ≡ types_in (body_of_written body.entry)) }
{
    let mut found = Vec::new(alloc);
    add_param_types(body.params, &mut found)?;
    let decls = body_decls(alloc, body)?;
    add_decl_types(decls.as_slice(), &mut found)?;
    Ok(found)
}

fn add_value<'a>(decl: &'a Decl, found: &mut Vec<Typed<'a>>) -> Result<(), Memory>
    ensures { OnOk result (map typed_of found.new.items ≡ map typed_of found.old.items ++ decl_constants (decl_tree decl.now)) }
{
    match decl {
        Decl::Const { ty, name: _, value }
        | Decl::Disc {
            ty,
            name: _,
            value: Some(value),
        } => Ok(found.push(Typed { ty, value })?),
        Decl::Disc { value: None, .. }
        | Decl::TypeName { .. }
        | Decl::Enum { .. }
        | Decl::Event { .. }
        | Decl::Alg { .. }
        | Decl::Input { .. }
        | Decl::Equation { .. }
        | Decl::Inv(_)
        | Decl::Marked(_) => Ok(()),
    }
}

fn add_values<'a>(decls: &[&'a Decl], found: &mut Vec<Typed<'a>>) -> Result<(), Memory>
    ensures { OnOk result (map typed_of found.new.items
        ≡ map typed_of found.old.items ++ flat_map decl_constants (map decl_of decls.now)) }
{
    for decl in decls {
        add_value(decl, found)?;
    }
    Ok(())
}

/// The values of the constants of a body and the first values of its variables.
pub fn body_values<'a>(alloc: Global, body: Written<'a>) -> Result<Vec<Typed<'a>>, Memory>
    ensures { IfOk result (λ all. map typed_of all.items ≡ values_in (body_of_written body.entry)) }
{
    let mut found = Vec::new(alloc);
    let decls = body_decls(alloc, body)?;
    add_values(decls.as_slice(), &mut found)?;
    Ok(found)
}
