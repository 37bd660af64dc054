//! Copies of names, types and expressions: a derived `Clone` would say nothing of what a copy of a tree is.

ghost use Rattle.std.specs.Prelude.{◌≡◌, IfOk};

use crate::declarations::{Chan, TypeUse};
use crate::expressions::{Branch, Expr, Factor, Form, Term};
use crate::names::{Ident, Name};
use cif_base::{Boxed, Items, Memory};
use std::alloc::Global;

impl Ident {
    /// A copy, which differs in nothing that a contract sees.
    pub fn copy(&self, alloc: Global) -> Result<Ident, Memory>
        ensures { IfOk result (λ x. x ≡ self.now) }
    {
        Ok(Ident {
            text: self.text.copy(alloc)?,
            at: self.at,
        })
    }
}

impl Name {
    /// A copy, which differs in nothing that a contract sees.
    pub fn copy(&self, alloc: Global) -> Result<Name, Memory>
        ensures { IfOk result (λ x. x ≡ self.now) }
    {
        Ok(Name {
            from_root: self.from_root,
            parts: copy_idents(self.parts.as_slice(), alloc)?,
            at: self.at,
        })
    }
}

fn copy_idents(all: &[Ident], alloc: Global) -> Result<Items<Ident>, Memory>
    ensures { IfOk result (λ x. x ≡ all.now) }
{
    let mut copies = Items::new(alloc);
    for ident in all {
        copies.push(ident.copy(alloc)?)?;
    }
    Ok(copies)
}

impl TypeUse {
    /// A copy, which differs in nothing that a contract sees.
    pub fn copy(&self, alloc: Global) -> Result<TypeUse, Memory>
        ensures { IfOk result (λ x. x ≡ self.now) }
    {
        match self {
            TypeUse::Bool => Ok(TypeUse::Bool),
            TypeUse::Int => Ok(TypeUse::Int),
            TypeUse::Range(lower, upper) => Ok(TypeUse::Range(
                lower.copy(alloc)?,
                upper.copy(alloc)?,
            )),
            TypeUse::Named(name) => Ok(TypeUse::Named(name.copy(alloc)?)),
        }
    }
}

impl Chan {
    /// A copy, which differs in nothing that a contract sees.
    pub fn copy(&self, alloc: Global) -> Result<Chan, Memory>
        ensures { IfOk result (λ x. x ≡ self.now) }
    {
        match self {
            Chan::No => Ok(Chan::No),
            Chan::Void => Ok(Chan::Void),
            Chan::Of(ty) => Ok(Chan::Of(ty.copy(alloc)?)),
        }
    }
}

impl Expr {
    /// A copy, which differs in nothing that a contract sees.
    #[cycle(copy)]
    pub fn copy(&self, alloc: Global) -> Result<Expr, Memory>
        ensures { IfOk result (λ x. x ≡ self.now) }
    {
        Ok(Expr {
            form: self.form.copy(alloc)?,
            at: self.at,
        })
    }

    /// A copy in a box.
    #[cycle(copy)]
    fn boxed(&self, alloc: Global) -> Result<Boxed<Expr>, Memory>
        ensures { IfOk result (λ x. x ≡ self.now) }
    {
        Boxed::new(alloc, self.copy(alloc)?)
    }
}

impl Form {
    #[cycle(copy)]
    fn copy(&self, alloc: Global) -> Result<Form, Memory>
        ensures { IfOk result (λ x. x ≡ self.now) }
    {
        Ok(match self {
            Form::Bool(b) => Form::Bool(*b),
            Form::Int(n) => Form::Int(*n),
            Form::Named(name) => Form::Named(name.copy(alloc)?),
            Form::Received => Form::Received,
            Form::Paren(e) => Form::Paren(e.get().boxed(alloc)?),
            Form::Neg(e) => Form::Neg(e.get().boxed(alloc)?),
            Form::Plus(e) => Form::Plus(e.get().boxed(alloc)?),
            Form::Not(e) => Form::Not(e.get().boxed(alloc)?),
            Form::Abs(e) => Form::Abs(e.get().boxed(alloc)?),
            Form::Min(a, b) => Form::Min(a.get().boxed(alloc)?, b.get().boxed(alloc)?),
            Form::Max(a, b) => Form::Max(a.get().boxed(alloc)?, b.get().boxed(alloc)?),
            Form::Sum { first, rest } => Form::Sum {
                first: first.get().boxed(alloc)?,
                rest: copy_terms(rest.as_slice(), alloc)?,
            },
            Form::Product { first, rest } => Form::Product {
                first: first.get().boxed(alloc)?,
                rest: copy_factors(rest.as_slice(), alloc)?,
            },
            Form::Compare { left, op, right } => Form::Compare {
                left: left.get().boxed(alloc)?,
                op: *op,
                right: right.get().boxed(alloc)?,
            },
            Form::And(parts) => Form::And(copy_exprs(parts.as_slice(), alloc)?),
            Form::Or(parts) => Form::Or(copy_exprs(parts.as_slice(), alloc)?),
            Form::Implies(a, b) => Form::Implies(a.get().boxed(alloc)?, b.get().boxed(alloc)?),
            Form::Iff(a, b) => Form::Iff(a.get().boxed(alloc)?, b.get().boxed(alloc)?),
            Form::If { branches, other } => Form::If {
                branches: copy_branches(branches.as_slice(), alloc)?,
                other: other.get().boxed(alloc)?,
            },
        })
    }
}

impl Term {
    /// A copy, which differs in nothing that a contract sees.
    #[cycle(copy)]
    pub fn copy(&self, alloc: Global) -> Result<Term, Memory>
        ensures { IfOk result (λ x. x ≡ self.now) }
    {
        Ok(Term {
            minus: self.minus,
            value: self.value.copy(alloc)?,
        })
    }
}

impl Factor {
    /// A copy, which differs in nothing that a contract sees.
    #[cycle(copy)]
    pub fn copy(&self, alloc: Global) -> Result<Factor, Memory>
        ensures { IfOk result (λ x. x ≡ self.now) }
    {
        Ok(Factor {
            op: self.op,
            value: self.value.copy(alloc)?,
        })
    }
}

impl Branch {
    /// A copy, which differs in nothing that a contract sees.
    #[cycle(copy)]
    pub fn copy(&self, alloc: Global) -> Result<Branch, Memory>
        ensures { IfOk result (λ x. x ≡ self.now) }
    {
        Ok(Branch {
            conds: copy_exprs(self.conds.as_slice(), alloc)?,
            value: self.value.copy(alloc)?,
        })
    }
}

#[cycle(copy)]
fn copy_terms(all: &[Term], alloc: Global) -> Result<Items<Term>, Memory>
    ensures { IfOk result (λ x. x ≡ all.now) }
{
    let mut copies = Items::new(alloc);
    for term in all {
        copies.push(term.copy(alloc)?)?;
    }
    Ok(copies)
}

#[cycle(copy)]
fn copy_factors(all: &[Factor], alloc: Global) -> Result<Items<Factor>, Memory>
    ensures { IfOk result (λ x. x ≡ all.now) }
{
    let mut copies = Items::new(alloc);
    for factor in all {
        copies.push(factor.copy(alloc)?)?;
    }
    Ok(copies)
}

#[cycle(copy)]
fn copy_exprs(all: &[Expr], alloc: Global) -> Result<Items<Expr>, Memory>
    ensures { IfOk result (λ x. x ≡ all.now) }
{
    let mut copies = Items::new(alloc);
    for expr in all {
        copies.push(expr.copy(alloc)?)?;
    }
    Ok(copies)
}

#[cycle(copy)]
fn copy_branches(all: &[Branch], alloc: Global) -> Result<Items<Branch>, Memory>
    ensures { IfOk result (λ x. x ≡ all.now) }
{
    let mut copies = Items::new(alloc);
    for branch in all {
        copies.push(branch.copy(alloc)?)?;
    }
    Ok(copies)
}
