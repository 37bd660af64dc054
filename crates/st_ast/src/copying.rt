//! Copies of expressions: a derived `Clone` would say nothing of what a copy of a tree is.

ghost use Rattle.std.specs.Prelude.{◌≡◌, IfOk};
ghost use Rattle.st_ast.specs.View.{view_expr};

use crate::tree::{StExpr, StFactor, StTerm};
use cif_base::{Boxed, Items, Memory};
use std::alloc::Global;

impl StExpr {
    /// A copy, which differs in nothing that a contract sees.
    pub fn copy(&self, alloc: Global) -> Result<StExpr, Memory>
        ensures same { IfOk result (λ x. x ≡ self.now) }
        ensures view { IfOk result (λ x. view_expr x ≡ view_expr self.now) }
    {
        self.copied(alloc)
    }

    #[cycle(copy)]
    fn copied(&self, alloc: Global) -> Result<StExpr, Memory>
        ensures { IfOk result (λ x. x ≡ self.now) }
    {
        match self {
            StExpr::Bool(b) => Ok(StExpr::Bool(*b)),
            StExpr::Int(n) => Ok(StExpr::Int(*n)),
            StExpr::Named(name) => name.copy(alloc).map(StExpr::Named),
            StExpr::Paren(e) => e.get().boxed(alloc).map(StExpr::Paren),
            StExpr::Neg(e) => e.get().boxed(alloc).map(StExpr::Neg),
            StExpr::Not(e) => e.get().boxed(alloc).map(StExpr::Not),
            StExpr::Product { first, rest } => {
                let (first, rest) = both(first.get().boxed(alloc), copy_factors(rest, alloc))?;
                Ok(StExpr::Product { first, rest })
            }
            StExpr::Sum { first, rest } => {
                let (first, rest) = both(first.get().boxed(alloc), copy_terms(rest, alloc))?;
                Ok(StExpr::Sum { first, rest })
            }
            StExpr::Order { left, op, right } => {
                let (left, right) = both(left.get().boxed(alloc), right.get().boxed(alloc))?;
                let op = *op;
                Ok(StExpr::Order { left, op, right })
            }
            StExpr::Equal { left, equal, right } => {
                let (left, right) = both(left.get().boxed(alloc), right.get().boxed(alloc))?;
                let equal = *equal;
                Ok(StExpr::Equal { left, equal, right })
            }
            StExpr::And(parts) => copy_exprs(parts, alloc).map(StExpr::And),
            StExpr::Xor(parts) => copy_exprs(parts, alloc).map(StExpr::Xor),
            StExpr::Or(parts) => copy_exprs(parts, alloc).map(StExpr::Or),
            StExpr::Abs(e) => e.get().boxed(alloc).map(StExpr::Abs),
            StExpr::Min(a, b) => pair(StExpr::Min, a.get().boxed(alloc), b.get().boxed(alloc)),
            StExpr::Max(a, b) => pair(StExpr::Max, a.get().boxed(alloc), b.get().boxed(alloc)),
            StExpr::Sel(cond, a, b) => {
                let cond = cond.get().boxed(alloc)?;
                let (a, b) = both(a.get().boxed(alloc), b.get().boxed(alloc))?;
                Ok(StExpr::Sel(cond, a, b))
            }
        }
    }

    #[cycle(copy)]
    fn boxed(&self, alloc: Global) -> Result<Boxed<StExpr>, Memory>
        ensures { IfOk result (λ x. x ≡ self.now) }
    {
        Boxed::new(alloc, self.copied(alloc)?)
    }
}

/// Two copies, where there was memory for both: a `?` for each is slow to check.
fn both<T: Drop, U: Drop>(
    first: Result<T, Memory>,
    second: Result<U, Memory>,
) -> Result<(T, U), Memory>
    ensures { IfOk result (λ x. (first ≡ Ok x.0) × (second ≡ Ok x.1)) }
{
    Ok((first?, second?))
}

/// The form of two copies, where there was memory for both.
fn pair<F: FnOnce(Boxed<StExpr>, Boxed<StExpr>) -> StExpr>(
    form: F,
    first: Result<Boxed<StExpr>, Memory>,
    second: Result<Boxed<StExpr>, Memory>,
) -> Result<StExpr, Memory>
    requires { F.IsAlwaysCallable form }
    ensures { IfOk result (λ x. (p q : _) × (first ≡ Ok p) × (second ≡ Ok q) × F.post form p q x) }
{
    Ok(form(first?, second?))
}

#[cycle(copy)]
fn copy_terms(all: &Items<StTerm>, alloc: Global) -> Result<Items<StTerm>, Memory>
    ensures { IfOk result (λ x. x ≡ all.now) }
{
    let mut copies = Items::new(alloc);
    for term in all.as_slice() {
        let value = term.value.copied(alloc)?;
        copies.push(StTerm {
            minus: term.minus,
            value,
        })?;
    }
    Ok(copies)
}

#[cycle(copy)]
fn copy_factors(all: &Items<StFactor>, alloc: Global) -> Result<Items<StFactor>, Memory>
    ensures { IfOk result (λ x. x ≡ all.now) }
{
    let mut copies = Items::new(alloc);
    for factor in all.as_slice() {
        let value = factor.value.copied(alloc)?;
        copies.push(StFactor {
            op: factor.op,
            value,
        })?;
    }
    Ok(copies)
}

#[cycle(copy)]
fn copy_exprs(all: &Items<StExpr>, alloc: Global) -> Result<Items<StExpr>, Memory>
    ensures { IfOk result (λ x. x ≡ all.now) }
{
    let mut copies = Items::new(alloc);
    for expr in all.as_slice() {
        copies.push(expr.copied(alloc)?)?;
    }
    Ok(copies)
}
