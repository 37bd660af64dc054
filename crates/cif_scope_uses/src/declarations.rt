//! The names of declarations and parameters.

ghost use Rattle.std.specs.Prelude.{◌≡◌, ◌++◌, map, option_map, OnOk};
ghost use Rattle.cif_ast.specs.View.{view};
ghost use Rattle.cif_source.specs.Source.{type_tree, channel_tree, invariant_tree, decl_tree, param_tree};
ghost use Rattle.cif_source.specs.Uses.{asking, type_uses, channel_uses, optional_uses, invariant_uses, decl_uses, param_uses};
ghost use Rattle.cif_scope_uses.specs.Views.{sort_of, use_of};

use crate::expressions::add_names;
use crate::uses::{Asked, Use};
use cif_ast::{Chan, Decl, Expr, Inv, Name, Param, TypeUse};
use cif_base::Memory;

/// Adds names, each asked for what `asks` says.
pub fn add_listed<'a>(all: &'a [Name], asks: Asked, found: &mut Vec<Use<'a>>) -> Result<(), Memory>
    ensures { OnOk result (map use_of found.new.items
        ≡ map use_of found.old.items ++ asking (sort_of asks) all.now) }
{
    for name in all {
        found.push(Use { name, asks })?;
    }
    Ok(())
}

/// Adds the names of an expression that may be left out.
pub fn add_optional<'a>(value: &'a Option<Expr>, found: &mut Vec<Use<'a>>) -> Result<(), Memory>
    ensures { OnOk result (map use_of found.new.items
        ≡ map use_of found.old.items ++ optional_uses (option_map view value.now)) }
{
    match value {
        Some(expr) => add_names(expr, Asked::Value, found),
        None => Ok(()),
    }
}

fn add_type<'a>(ty: &'a TypeUse, found: &mut Vec<Use<'a>>) -> Result<(), Memory>
    ensures { OnOk result (map use_of found.new.items
        ≡ map use_of found.old.items ++ type_uses (type_tree ty.now)) }
{
    match ty {
        TypeUse::Bool | TypeUse::Int => Ok(()),
        TypeUse::Range(lower, upper) => {
            add_names(lower, Asked::Value, found)?;
            add_names(upper, Asked::Value, found)
        }
        TypeUse::Named(name) => Ok(found.push(Use {
            name,
            asks: Asked::Type,
        })?),
    }
}

fn add_channel<'a>(chan: &'a Chan, found: &mut Vec<Use<'a>>) -> Result<(), Memory>
    ensures { OnOk result (map use_of found.new.items
        ≡ map use_of found.old.items ++ channel_uses (channel_tree chan.now)) }
{
    match chan {
        Chan::No | Chan::Void => Ok(()),
        Chan::Of(ty) => add_type(ty, found),
    }
}

fn add_invariant<'a>(inv: &'a Inv, found: &mut Vec<Use<'a>>) -> Result<(), Memory>
    ensures { OnOk result (map use_of found.new.items
        ≡ map use_of found.old.items ++ invariant_uses (invariant_tree inv.now)) }
{
    match inv {
        Inv::State(p) => add_names(p, Asked::Value, found),
        Inv::Needs { events, p } => {
            add_listed(events.as_slice(), Asked::Event, found)?;
            add_names(p, Asked::Value, found)
        }
        Inv::Disables { p, events } => {
            add_names(p, Asked::Value, found)?;
            add_listed(events.as_slice(), Asked::Event, found)
        }
    }
}

/// Adds the names that a declaration writes.
pub fn add_decl_uses<'a>(decl: &'a Decl, found: &mut Vec<Use<'a>>) -> Result<(), Memory>
    ensures { OnOk result (map use_of found.new.items
        ≡ map use_of found.old.items ++ decl_uses (decl_tree decl.now)) }
{
    match decl {
        Decl::TypeName { name: _, ty } | Decl::Input { ty, name: _ } => add_type(ty, found),
        Decl::Enum { .. } => Ok(()),
        Decl::Event {
            class: _,
            chan,
            name: _,
        } => add_channel(chan, found),
        Decl::Const { ty, name: _, value } => {
            add_type(ty, found)?;
            add_names(value, Asked::Value, found)
        }
        Decl::Alg { ty, name: _, value } | Decl::Disc { ty, name: _, value } => {
            add_type(ty, found)?;
            add_optional(value, found)
        }
        Decl::Equation { name: _, value } => add_names(value, Asked::Value, found),
        Decl::Inv(inv) => add_invariant(inv, found),
        Decl::Marked(p) => add_names(p, Asked::Value, found),
    }
}

/// Adds the names that a parameter of a definition writes.
pub fn add_param_uses<'a>(param: &'a Param, found: &mut Vec<Use<'a>>) -> Result<(), Memory>
    ensures { OnOk result (map use_of found.new.items
        ≡ map use_of found.old.items ++ param_uses (param_tree param.now)) }
{
    match param {
        Param::Event {
            class: _,
            chan,
            name: _,
        } => add_channel(chan, found),
        Param::Alg { ty, name: _ } => add_type(ty, found),
        Param::Location { .. } => Ok(()),
    }
}
