//! Parentheses round an expression, and bare names.

ghost use Rattle.std.specs.Prelude.{◌≡◌};
ghost use Rattle.std.specs.Option.{option_copied};
ghost use Rattle.cif_ast.specs.View.{view};
ghost use Rattle.cif_source.specs.Uses as uses;
ghost use Rattle.cif_inst_parameters.specs.Stripping as stripping;

use cif_ast::{Expr, Form, Name};

/// An expression without the parentheses round it.
pub fn without_parentheses(value: &Expr) -> &Expr
    ensures { view result.now ≡ stripping.stripped (view value.now) }
{
    match &value.form {
        Form::Paren(inner) => without_parentheses(inner.get()),
        _ => value,
    }
}

/// Where the parentheses round an expression begin, the outermost ones.
pub fn parentheses_at(value: &Expr) -> Option<u32>
    ensures { result ≡ stripping.parentheses_at (view value.now) }
{
    match &value.form {
        Form::Paren(_) => Some(value.at),
        _ => None,
    }
}

/// The name that an expression is, where it is nothing else.
pub fn bare_name(value: &Expr) -> Option<&Name>
    ensures { option_copied result ≡ uses.bare_name (view value.now) }
{
    match &value.form {
        Form::Named(name) => Some(name),
        _ => None,
    }
}
