//! The size of an expression, the number of its forms, and its depth. Both stop one past their limits.

ghost use Rattle.std.specs.Prelude.{◌≡◌, ℕ, slice_index_or};
ghost use Rattle.cif_net_model.specs.Counts.{one_form, no_form, beside, above, measure_by};
ghost use Rattle.cif_net_model.specs.Counts as counts;
ghost use Rattle.cif_net_expr.specs.View.{view, view_form, view_exprs, view_terms, view_factors, view_branches};
ghost use Rattle.cif_alg_measure.specs.Meanings.{as_measure, stopped_measure, table_measure, stopped_table};
ghost use Rattle.cif_alg_measure.specs.Counted.{counted, form_counted, terms_counted, factors_counted, list_counted, branches_counted};

use cif_net_expr::{NetBranch, NetExpr, NetFactor, NetForm, NetTerm};

/// The most nodes that the choices of a net may have.
pub const MOST_NODES: u64 = 1_000_000;

/// The greatest depth that an expression of a net may have.
pub const MOST_DEPTH: u64 = 100;

/// How many forms there are, and how deep they stand in one another.
#[derive(Clone, Copy, Debug, PartialEq, Eq)]
pub struct Measure {
    pub size: u64,
    pub depth: u64,
}

impl Measure {
    /// That of no form.
    pub fn none() -> Measure
        ensures { result ≡ stopped_measure no_form }
    {
        Measure { size: 0, depth: 0 }
    }

    /// That of one form without operands.
    pub fn one() -> Measure
        ensures { result ≡ stopped_measure one_form }
    {
        Measure { size: 1, depth: 0 }
    }

    /// The same, stopped one past the limits.
    pub fn stopped(self) -> Measure
        ensures { result ≡ stopped_measure (as_measure self) }
    {
        Measure {
            size: self.size.min(MOST_NODES + 1),
            depth: self.depth.min(MOST_DEPTH + 1),
        }
    }

    /// That of forms side by side.
    pub fn beside(self, other: Measure) -> Measure
        ensures { result ≡ stopped_measure (beside (as_measure self) (as_measure other)) }
    {
        Measure {
            size: self.size.saturating_add(other.size).min(MOST_NODES + 1),
            depth: self.depth.max(other.depth).min(MOST_DEPTH + 1),
        }
    }

    /// That of forms with one above them.
    pub fn above(self) -> Measure
        ensures { result ≡ stopped_measure (above (as_measure self)) }
    {
        Measure {
            size: self.size.saturating_add(1).min(MOST_NODES + 1),
            depth: self.depth.saturating_add(1).min(MOST_DEPTH + 1),
        }
    }
}

/// The measure of an expression, in which an algebraic variable counts as the measure with its number in `algs`, and as nothing
/// past the end. Where these are stopped measures, the answer is that of their whole measures.
pub fn expr_measure(algs: &[Measure], expr: &NetExpr) -> Measure
    ensures value { result ≡ stopped_measure (measure_by (table_measure algs.now) (view expr.now)) }
    ensures whole { (alg : ℕ → counts.Measure)
        → ((k : ℕ) → stopped_measure (table_measure algs.now k) ≡ stopped_measure (alg k))
        → result ≡ stopped_measure (measure_by alg (view expr.now)) }
{
    measure_of(expr, algs)
}

fn measure_at(algs: &[Measure], number: u32) -> Measure
    ensures { result ≡ stopped_table algs.now number }
{
    match algs.get(number as usize) {
        Some(measure) => measure.stopped(),
        None => Measure::none(),
    }
}

#[cycle(measures)]
pub(crate) fn measure_of(expr: &NetExpr, algs: &[Measure]) -> Measure
    ensures { result ≡ counted (stopped_table algs.now) (view expr.now) }
{
    form_measure(&expr.form, algs)
}

#[cycle(measures)]
fn form_measure(form: &NetForm, algs: &[Measure]) -> Measure
    ensures { result ≡ form_counted (stopped_table algs.now) (view_form form.now) }
{
    match form {
        NetForm::Bool(_)
        | NetForm::Int(_)
        | NetForm::Loc { .. }
        | NetForm::Var(_)
        | NetForm::Input(_)
        | NetForm::Received => Measure::one(),
        NetForm::Alg(number) => measure_at(algs, *number),
        NetForm::Neg(e) | NetForm::Plus(e) | NetForm::Not(e) | NetForm::Abs(e) => {
            measure_of(e.get(), algs).above()
        }
        NetForm::Min(a, b) | NetForm::Max(a, b) | NetForm::Implies(a, b) | NetForm::Iff(a, b) =>
            measure_of(a.get(), algs)
                .beside(measure_of(b.get(), algs))
                .above(),
        NetForm::Compare { left, op: _, right } => measure_of(left.get(), algs)
            .beside(measure_of(right.get(), algs))
            .above(),
        NetForm::Sum { first, rest } => {
            let first = measure_of(first.get(), algs);
            terms_measure(rest.as_slice(), first, algs).above()
        }
        NetForm::Product { first, rest } => {
            let first = measure_of(first.get(), algs);
            factors_measure(rest.as_slice(), first, algs).above()
        }
        NetForm::And(parts) | NetForm::Or(parts) => { list_measure(parts.as_slice(), algs).above() }
        NetForm::If { branches, other } => {
            let other = measure_of(other.get(), algs);
            branches_measure(branches.as_slice(), other, algs).above()
        }
    }
}

#[cycle(measures)]
fn list_measure(all: &[NetExpr], algs: &[Measure]) -> Measure
    ensures { result ≡ list_counted (stopped_table algs.now) (stopped_measure no_form) (view_exprs all.now) }
{
    let mut found = Measure::none();
    for expr in all {
        found = found.beside(measure_of(expr, algs));
    }
    found
}

#[cycle(measures)]
fn terms_measure(all: &[NetTerm], first: Measure, algs: &[Measure]) -> Measure
    ensures { result ≡ terms_counted (stopped_table algs.now) first (view_terms all.now) }
{
    let mut found = first;
    for term in all {
        found = found.beside(measure_of(&term.value, algs));
    }
    found
}

#[cycle(measures)]
fn factors_measure(all: &[NetFactor], first: Measure, algs: &[Measure]) -> Measure
    ensures { result ≡ factors_counted (stopped_table algs.now) first (view_factors all.now) }
{
    let mut found = first;
    for factor in all {
        found = found.beside(measure_of(&factor.value, algs));
    }
    found
}

#[cycle(measures)]
fn branches_measure(all: &[NetBranch], other: Measure, algs: &[Measure]) -> Measure
    ensures { result ≡ branches_counted (stopped_table algs.now) other (view_branches all.now) }
{
    let mut found = other;
    for branch in all {
        let cond = measure_of(&branch.cond, algs);
        found = found.beside(cond).beside(measure_of(&branch.value, algs));
    }
    found
}
