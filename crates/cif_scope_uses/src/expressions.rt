//! The names of expressions.

ghost use Rattle.std.specs.Prelude.{◌≡◌, ◌++◌, map, OnOk};
ghost use Rattle.cif_ast.specs.View.{view, view_form, view_exprs, view_terms, view_factors, view_branches};
ghost use Rattle.cif_source.specs.Uses.{asking, names_in, shape_names, names_in_all, term_names, factor_names, branch_names};
ghost use Rattle.cif_scope_uses.specs.Views.{sort_of, use_of};

use crate::uses::{Asked, Use};
use cif_ast::{Branch, Expr, Factor, Form, Term};
use cif_base::Memory;

/// Adds the names that an expression writes, each asked for what `asks` says.
#[cycle(expressions)]
pub fn add_names<'a>(expr: &'a Expr, asks: Asked, found: &mut Vec<Use<'a>>) -> Result<(), Memory>
    ensures { OnOk result (map use_of found.new.items
        ≡ map use_of found.old.items ++ asking (sort_of asks) (names_in (view expr.now))) }
{
    add_form(&expr.form, asks, found)
}

#[cycle(expressions)]
fn add_form<'a>(form: &'a Form, asks: Asked, found: &mut Vec<Use<'a>>) -> Result<(), Memory>
    ensures { OnOk result (map use_of found.new.items
        ≡ map use_of found.old.items ++ asking (sort_of asks) (shape_names (view_form form.now))) }
{
    match form {
        Form::Bool(_) | Form::Int(_) | Form::Received => Ok(()),
        Form::Named(name) => Ok(found.push(Use { name, asks })?),
        Form::Paren(e) | Form::Neg(e) | Form::Plus(e) | Form::Not(e) | Form::Abs(e) => {
            add_names(e.get(), asks, found)
        }
        Form::Min(a, b) | Form::Max(a, b) | Form::Implies(a, b) | Form::Iff(a, b) => {
            add_names(a.get(), asks, found)?;
            add_names(b.get(), asks, found)
        }
        Form::Compare { left, op: _, right } => {
            add_names(left.get(), asks, found)?;
            add_names(right.get(), asks, found)
        }
        Form::Sum { first, rest } => {
            add_names(first.get(), asks, found)?;
            add_terms(rest.as_slice(), asks, found)
        }
        Form::Product { first, rest } => {
            add_names(first.get(), asks, found)?;
            add_factors(rest.as_slice(), asks, found)
        }
        Form::And(parts) | Form::Or(parts) => add_all_names(parts.as_slice(), asks, found),
        Form::If { branches, other } => {
            add_branches(branches.as_slice(), asks, found)?;
            add_names(other.get(), asks, found)
        }
    }
}

/// Adds the names that expressions write.
#[cycle(expressions)]
pub fn add_all_names<'a>(
    all: &'a [Expr],
    asks: Asked,
    found: &mut Vec<Use<'a>>,
) -> Result<(), Memory>
    ensures { OnOk result (map use_of found.new.items
        ≡ map use_of found.old.items ++ asking (sort_of asks) (names_in_all (view_exprs all.now))) }
{
    for expr in all {
        add_names(expr, asks, found)?;
    }
    Ok(())
}

#[cycle(expressions)]
fn add_terms<'a>(all: &'a [Term], asks: Asked, found: &mut Vec<Use<'a>>) -> Result<(), Memory>
    ensures { OnOk result (map use_of found.new.items
        ≡ map use_of found.old.items ++ asking (sort_of asks) (term_names (view_terms all.now))) }
{
    for term in all {
        add_names(&term.value, asks, found)?;
    }
    Ok(())
}

#[cycle(expressions)]
fn add_factors<'a>(all: &'a [Factor], asks: Asked, found: &mut Vec<Use<'a>>) -> Result<(), Memory>
    ensures { OnOk result (map use_of found.new.items
        ≡ map use_of found.old.items ++ asking (sort_of asks) (factor_names (view_factors all.now))) }
{
    for factor in all {
        add_names(&factor.value, asks, found)?;
    }
    Ok(())
}

#[cycle(expressions)]
fn add_branches<'a>(all: &'a [Branch], asks: Asked, found: &mut Vec<Use<'a>>) -> Result<(), Memory>
    ensures { OnOk result (map use_of found.new.items
        ≡ map use_of found.old.items ++ asking (sort_of asks) (branch_names (view_branches all.now))) }
{
    for branch in all {
        add_all_names(branch.conds.as_slice(), asks, found)?;
        add_names(&branch.value, asks, found)?;
    }
    Ok(())
}
