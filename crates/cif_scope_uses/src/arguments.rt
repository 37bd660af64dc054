//! The names of an instance's arguments.

ghost use Rattle.std.specs.Prelude.{◌≡◌, ◌++◌, map, OnOk};
ghost use Rattle.cif_ast.specs.View.{view};
ghost use Rattle.cif_source.specs.Source.{param_tree};
ghost use Rattle.cif_source.specs.Uses.{arg_uses, stray_uses, args_uses};
ghost use Rattle.cif_scope_uses.specs.Views.{use_of};

use crate::expressions::add_names;
use crate::uses::{Asked, Use};
use cif_ast::{Expr, Form, Param};
use cif_base::Memory;

fn add_arg<'a>(arg: &'a Expr, param: &Param, found: &mut Vec<Use<'a>>) -> Result<(), Memory>
    ensures { OnOk result (map use_of found.new.items
        ≡ map use_of found.old.items ++ arg_uses (view arg.now) (param_tree param.now)) }
{
    match &arg.form {
        Form::Named(name) => {
            let asks = match param {
                Param::Event { .. } => Asked::Event,
                Param::Alg { .. } => Asked::Value,
                Param::Location { .. } => Asked::Location,
            };
            Ok(found.push(Use { name, asks })?)
        }
        _ => add_names(arg, Asked::Value, found),
    }
}

fn add_stray<'a>(arg: &'a Expr, found: &mut Vec<Use<'a>>) -> Result<(), Memory>
    ensures { OnOk result (map use_of found.new.items
        ≡ map use_of found.old.items ++ stray_uses (view arg.now)) }
{
    match &arg.form {
        Form::Named(name) => Ok(found.push(Use {
            name,
            asks: Asked::Any,
        })?),
        _ => add_names(arg, Asked::Value, found),
    }
}

/// Adds the names of the arguments of an instance beside the parameters of its definition. Where the definition isn't
/// found, there are none.
pub fn add_arg_uses<'a>(
    args: &'a [Expr],
    params: &[Param],
    found: &mut Vec<Use<'a>>,
) -> Result<(), Memory>
    ensures { OnOk result (map use_of found.new.items
        ≡ map use_of found.old.items ++ args_uses (map view args.now) (map param_tree params.now)) }
{
    let mut further = params;
    for arg in args {
        match further.split_first() {
            Some((param, rest)) => {
                add_arg(arg, param, found)?;
                further = rest;
            }
            None => add_stray(arg, found)?,
        }
    }
    Ok(())
}
