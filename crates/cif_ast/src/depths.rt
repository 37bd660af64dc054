//! How deep expressions are.

ghost use Rattle.std.specs.Prelude.{◌≡◌, ◌<◌, ◌^◌};
ghost use Rattle.cif_ast.specs.Depth as spec;
ghost use Rattle.cif_ast.specs.View.{view, view_form, view_exprs, view_terms, view_factors, view_branches};

use crate::expressions::{Branch, Expr, Factor, Form, Term};

/// How deep an expression is. A literal, a name and `?` have depth 0; every other form, parentheses included, has one
/// more than its deepest part. A list of operands of one level is one form.
#[cycle(depth)]
pub fn depth(expr: &Expr) -> u32
    requires { spec.depth (view expr.now) < 2 ^ 32 }
    ensures { result ≡ spec.depth (view expr.now) }
{
    depth_of_form(&expr.form)
}

#[cycle(depth)]
fn depth_of_form(form: &Form) -> u32
    requires { spec.shape_depth (view_form form.now) < 2 ^ 32 }
    ensures { result ≡ spec.shape_depth (view_form form.now) }
{
    match form {
        Form::Bool(_) | Form::Int(_) | Form::Named(_) | Form::Received => 0,
        Form::Paren(e) => depth(e.get()) + 1,
        Form::Neg(e) => depth(e.get()) + 1,
        Form::Plus(e) => depth(e.get()) + 1,
        Form::Not(e) => depth(e.get()) + 1,
        Form::Abs(e) => depth(e.get()) + 1,
        Form::Min(a, b) => depth(a.get()).max(depth(b.get())) + 1,
        Form::Max(a, b) => depth(a.get()).max(depth(b.get())) + 1,
        Form::Sum { first, rest } => depth(first.get()).max(depth_of_terms(rest.as_slice())) + 1,
        Form::Product { first, rest } => {
            depth(first.get()).max(depth_of_factors(rest.as_slice())) + 1
        }
        Form::Compare { left, op: _, right } => depth(left.get()).max(depth(right.get())) + 1,
        Form::And(parts) => depth_of_exprs(parts.as_slice()) + 1,
        Form::Or(parts) => depth_of_exprs(parts.as_slice()) + 1,
        Form::Implies(a, b) => depth(a.get()).max(depth(b.get())) + 1,
        Form::Iff(a, b) => depth(a.get()).max(depth(b.get())) + 1,
        Form::If { branches, other } => {
            depth_of_branches(branches.as_slice()).max(depth(other.get())) + 1
        }
    }
}

/// That of the deepest one, or 0.
#[cycle(depth)]
fn depth_of_exprs(all: &[Expr]) -> u32
    requires { spec.trees_depth (view_exprs all.now) < 2 ^ 32 }
    ensures { result ≡ spec.trees_depth (view_exprs all.now) }
{
    let mut deepest = 0;
    for expr in all {
        deepest = depth(expr).max(deepest);
    }
    deepest
}

#[cycle(depth)]
fn depth_of_terms(all: &[Term]) -> u32
    requires { spec.terms_depth (view_terms all.now) < 2 ^ 32 }
    ensures { result ≡ spec.terms_depth (view_terms all.now) }
{
    let mut deepest = 0;
    for term in all {
        deepest = depth(&term.value).max(deepest);
    }
    deepest
}

#[cycle(depth)]
fn depth_of_factors(all: &[Factor]) -> u32
    requires { spec.factors_depth (view_factors all.now) < 2 ^ 32 }
    ensures { result ≡ spec.factors_depth (view_factors all.now) }
{
    let mut deepest = 0;
    for factor in all {
        deepest = depth(&factor.value).max(deepest);
    }
    deepest
}

#[cycle(depth)]
fn depth_of_branches(all: &[Branch]) -> u32
    requires { spec.branches_depth (view_branches all.now) < 2 ^ 32 }
    ensures { result ≡ spec.branches_depth (view_branches all.now) }
{
    let mut deepest = 0;
    for branch in all {
        deepest = depth_of_exprs(branch.conds.as_slice())
            .max(depth(&branch.value))
            .max(deepest);
    }
    deepest
}
