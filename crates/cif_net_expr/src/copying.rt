//! Copies of expressions and updates: a derived `Clone` would say nothing of what a copy of a tree is.

ghost use Rattle.std.specs.Prelude.{◌≡◌, IfOk};
ghost use Rattle.cif_net_expr.specs.View.{view, view_update, view_updates};

use crate::expressions::{NetBranch, NetExpr, NetFactor, NetForm, NetTerm};
use crate::updates::{NetUpdate, NetUpdateBranch};
use cif_base::{Boxed, Items, Memory};
use std::alloc::Global;

impl NetExpr {
    /// A copy, which differs in nothing that a contract sees.
    #[cycle(copy)]
    pub fn copy(&self, alloc: Global) -> Result<Boxed<NetExpr>, Memory>
        ensures same { IfOk result (λ x. x ≡ self.now) }
        ensures view { IfOk result (λ x. view x ≡ view self.now) }
    {
        let (form, at) = (self.form.copy(alloc)?, self.at);
        Boxed::new(alloc, NetExpr { form, at })
    }
}

impl NetForm {
    #[cycle(copy)]
    fn copy(&self, alloc: Global) -> Result<NetForm, Memory>
        ensures { IfOk result (λ x. x ≡ self.now) }
    {
        match self {
            NetForm::Bool(b) => Ok(NetForm::Bool(*b)),
            NetForm::Int(n) => Ok(NetForm::Int(*n)),
            &NetForm::Loc { auto, place } => Ok(NetForm::Loc { auto, place }),
            NetForm::Var(number) => Ok(NetForm::Var(*number)),
            NetForm::Input(number) => Ok(NetForm::Input(*number)),
            NetForm::Alg(number) => Ok(NetForm::Alg(*number)),
            NetForm::Received => Ok(NetForm::Received),
            NetForm::Neg(e) => e.get().copy(alloc).map(NetForm::Neg),
            NetForm::Plus(e) => e.get().copy(alloc).map(NetForm::Plus),
            NetForm::Not(e) => e.get().copy(alloc).map(NetForm::Not),
            NetForm::Abs(e) => e.get().copy(alloc).map(NetForm::Abs),
            NetForm::Min(a, b) => pair(NetForm::Min, a.get().copy(alloc), b.get().copy(alloc)),
            NetForm::Max(a, b) => pair(NetForm::Max, a.get().copy(alloc), b.get().copy(alloc)),
            NetForm::Sum { first, rest } => {
                let (first, rest) = both(first.get().copy(alloc), copy_terms(rest, alloc))?;
                Ok(NetForm::Sum { first, rest })
            }
            NetForm::Product { first, rest } => {
                let (first, rest) = both(first.get().copy(alloc), copy_factors(rest, alloc))?;
                Ok(NetForm::Product { first, rest })
            }
            NetForm::Compare { left, op, right } => {
                let (left, right) = both(left.get().copy(alloc), right.get().copy(alloc))?;
                let op = *op;
                Ok(NetForm::Compare { left, op, right })
            }
            NetForm::And(parts) => copy_exprs(parts, alloc).map(NetForm::And),
            NetForm::Or(parts) => copy_exprs(parts, alloc).map(NetForm::Or),
            NetForm::Implies(a, b) => pair(
                NetForm::Implies,
                a.get().copy(alloc),
                b.get().copy(alloc),
            ),
            NetForm::Iff(a, b) => pair(NetForm::Iff, a.get().copy(alloc), b.get().copy(alloc)),
            NetForm::If { branches, other } => {
                let (branches, other) = both(
                    copy_branches(branches, alloc),
                    other.get().copy(alloc),
                )?;
                Ok(NetForm::If { branches, other })
            }
        }
    }
}

/// Two copies, where there was memory for both: a `?` for each is slow to check.
fn both<T: Drop, U: Drop>(
    first: Result<T, Memory>,
    second: Result<U, Memory>,
) -> Result<(T, U), Memory>
    ensures { IfOk result (λ x. (first ≡ Ok x.0) × (second ≡ Ok x.1)) }
{
    Ok((first?, second?))
}

/// The form of two copies, where there was memory for both.
fn pair<F: FnOnce(Boxed<NetExpr>, Boxed<NetExpr>) -> NetForm>(
    form: F,
    first: Result<Boxed<NetExpr>, Memory>,
    second: Result<Boxed<NetExpr>, Memory>,
) -> Result<NetForm, Memory>
    requires { F.IsAlwaysCallable form }
    ensures { IfOk result (λ x. (p q : _) × (first ≡ Ok p) × (second ≡ Ok q) × F.post form p q x) }
{
    Ok(form(first?, second?))
}

#[cycle(copy)]
fn copy_terms(all: &Items<NetTerm>, alloc: Global) -> Result<Items<NetTerm>, Memory>
    ensures { IfOk result (λ x. x ≡ all.now) }
{
    let mut copies = Items::new(alloc);
    for term in all.as_slice() {
        let value = term.value.copy(alloc)?.into_inner();
        copies.push(NetTerm {
            minus: term.minus,
            value,
        })?;
    }
    Ok(copies)
}

#[cycle(copy)]
fn copy_factors(all: &Items<NetFactor>, alloc: Global) -> Result<Items<NetFactor>, Memory>
    ensures { IfOk result (λ x. x ≡ all.now) }
{
    let mut copies = Items::new(alloc);
    for factor in all.as_slice() {
        let value = factor.value.copy(alloc)?.into_inner();
        copies.push(NetFactor {
            op: factor.op,
            value,
        })?;
    }
    Ok(copies)
}

#[cycle(copy)]
fn copy_exprs(all: &Items<NetExpr>, alloc: Global) -> Result<Items<NetExpr>, Memory>
    ensures { IfOk result (λ x. x ≡ all.now) }
{
    let mut copies = Items::new(alloc);
    for expr in all.as_slice() {
        copies.push(expr.copy(alloc)?.into_inner())?;
    }
    Ok(copies)
}

#[cycle(copy)]
fn copy_branches(all: &Items<NetBranch>, alloc: Global) -> Result<Items<NetBranch>, Memory>
    ensures { IfOk result (λ x. x ≡ all.now) }
{
    let mut copies = Items::new(alloc);
    for branch in all.as_slice() {
        let (cond, value) = both(branch.cond.copy(alloc), branch.value.copy(alloc))?;
        copies.push(NetBranch {
            cond: cond.into_inner(),
            value: value.into_inner(),
        })?;
    }
    Ok(copies)
}

impl NetUpdate {
    /// A copy, which differs in nothing that a contract sees.
    #[cycle(copy_update)]
    pub fn copy(&self, alloc: Global) -> Result<Boxed<NetUpdate>, Memory>
        ensures same { IfOk result (λ x. x ≡ self.now) }
        ensures view { IfOk result (λ x. view_update x ≡ view_update self.now) }
    {
        match self {
            NetUpdate::Set { var, value } => {
                let value = value.copy(alloc)?.into_inner();
                Boxed::new(alloc, NetUpdate::Set { var: *var, value })
            }
            NetUpdate::If { branches, other } => {
                let branches = copy_update_branches(branches.as_slice(), alloc)?;
                let other = copy_updates(other.as_slice(), alloc)?;
                Boxed::new(alloc, NetUpdate::If { branches, other })
            }
        }
    }
}

/// A copy of a list of updates, which differs in nothing that a contract sees.
#[cycle(copy_update)]
pub fn copy_updates(all: &[NetUpdate], alloc: Global) -> Result<Items<NetUpdate>, Memory>
    ensures same { IfOk result (λ x. x ≡ all.now) }
    ensures view { IfOk result (λ x. view_updates x ≡ view_updates all.now) }
{
    let mut copies = Items::new(alloc);
    for update in all {
        copies.push(update.copy(alloc)?.into_inner())?;
    }
    Ok(copies)
}

#[cycle(copy_update)]
fn copy_update_branches(
    all: &[NetUpdateBranch],
    alloc: Global,
) -> Result<Items<NetUpdateBranch>, Memory>
    ensures { IfOk result (λ x. x ≡ all.now) }
{
    let mut copies = Items::new(alloc);
    for branch in all {
        let cond = branch.cond.copy(alloc)?;
        let updates = copy_updates(branch.updates.as_slice(), alloc)?;
        copies.push(NetUpdateBranch {
            cond: cond.into_inner(),
            updates,
        })?;
    }
    Ok(copies)
}
