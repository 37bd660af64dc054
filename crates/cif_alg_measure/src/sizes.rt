//! What the expressions of an edge, of an exclusion and of the state invariants of a net weigh.

ghost use Rattle.std.specs.Prelude.{◌≡◌, [], ◌∷◌, map, option_map, Some};
ghost use Rattle.cif_net_model.specs.Counts.{no_form, stopped, most_nodes, size_of};
ghost use Rattle.cif_net_model.specs.Exprs.{edge_exprs};
ghost use Rattle.cif_net_model.specs.Net.{NetInvariant};
ghost use Rattle.cif_net_model.specs.Net as model;
ghost use Rattle.cif_net.specs.View.{edge_tree, invariant_tree};
ghost use Rattle.cif_net_expr.specs.View.{view, view_update, view_updates, view_update_branches};
ghost use Rattle.cif_alg_measure.specs.Meanings.{stopped_measure, table_measure, stopped_table};
ghost use Rattle.cif_alg_measure.specs.Sizes.{AreMeasured, sizes_by, updates_counted, update_counted, branches_counted, sent_counted, edge_counted, invariants_counted};

use crate::measures::{Measure, measure_of};
use cif_net::{Exclusion, Invariant, NetEdge, NetExpr, NetUpdate, NetUpdateBranch};

/// The size of all expressions of an edge, its guard, its sent value and those of its updates. In this and the other calls that
/// take them, an algebraic variable counts as the measure with its number in `algs`, and sizes stop one past their limit.
pub fn edge_size(algs: &[Measure], edge: &NetEdge) -> u64
    ensures value { result ≡ stopped most_nodes (sizes_by (table_measure algs.now) (edge_exprs (edge_tree edge.now))) }
    ensures of_net { (n : model.Net) → AreMeasured algs.now n → result ≡ stopped most_nodes (size_of n (edge_exprs (edge_tree edge.now))) }
{
    edge_measure(edge, Measure::none(), algs).size
}

/// The size of the predicate of an exclusion.
pub fn exclusion_size(algs: &[Measure], exclusion: &Exclusion) -> u64
    ensures value { result ≡ stopped most_nodes (sizes_by (table_measure algs.now) (view exclusion.now.pred ∷ [])) }
    ensures of_net { (n : model.Net) → AreMeasured algs.now n → result ≡ stopped most_nodes (size_of n (view exclusion.now.pred ∷ [])) }
{
    Measure::none()
        .beside(measure_of(&exclusion.pred, algs))
        .size
}

/// The size of the predicates of all these state invariants.
pub fn invariants_size(algs: &[Measure], invariants: &[Invariant]) -> u64
    ensures value { result ≡ stopped most_nodes (sizes_by (table_measure algs.now)
        (map (λ (i : NetInvariant). i.pred) (map invariant_tree invariants.now))) }
    ensures of_net { (n : model.Net) → AreMeasured algs.now n → result ≡ stopped most_nodes (size_of n
        (map (λ (i : NetInvariant). i.pred) (map invariant_tree invariants.now))) }
{
    invariants_measure(invariants, Measure::none(), algs).size
}

/// The measure of what was measured before, and of the expressions of an edge.
pub(crate) fn edge_measure(edge: &NetEdge, before: Measure, algs: &[Measure]) -> Measure
    ensures { result ≡ edge_counted (stopped_table algs.now) before (edge_tree edge.now) }
{
    let guarded = before.beside(measure_of(&edge.guard, algs));
    let sending = sent_measure(&edge.sent, guarded, algs);
    updates_measure(edge.updates.as_slice(), sending, algs)
}

fn sent_measure(sent: &Option<NetExpr>, before: Measure, algs: &[Measure]) -> Measure
    ensures { result ≡ sent_counted (stopped_table algs.now) before (option_map view sent.now) }
{
    match sent {
        Some(value) => before.beside(measure_of(value, algs)),
        None => before,
    }
}

#[cycle(updates_measure)]
fn updates_measure(all: &[NetUpdate], before: Measure, algs: &[Measure]) -> Measure
    ensures { result ≡ updates_counted (stopped_table algs.now) before (view_updates all.now) }
{
    let mut found = before;
    for update in all {
        found = update_measure(update, found, algs);
    }
    found
}

#[cycle(updates_measure)]
fn update_measure(update: &NetUpdate, before: Measure, algs: &[Measure]) -> Measure
    ensures { result ≡ update_counted (stopped_table algs.now) before (view_update update.now) }
{
    match update {
        NetUpdate::Set { var: _, value } => before.beside(measure_of(value, algs)),
        NetUpdate::If { branches, other } => {
            let branched = branches_measure(branches.as_slice(), before, algs);
            updates_measure(other.as_slice(), branched, algs)
        }
    }
}

#[cycle(updates_measure)]
fn branches_measure(all: &[NetUpdateBranch], before: Measure, algs: &[Measure]) -> Measure
    ensures { result ≡ branches_counted (stopped_table algs.now) before (view_update_branches all.now) }
{
    let mut found = before;
    for branch in all {
        let tested = found.beside(measure_of(&branch.cond, algs));
        found = updates_measure(branch.updates.as_slice(), tested, algs);
    }
    found
}

pub(crate) fn invariants_measure(all: &[Invariant], before: Measure, algs: &[Measure]) -> Measure
    ensures { result ≡ invariants_counted (stopped_table algs.now) before (map invariant_tree all.now) }
{
    let mut found = before;
    for invariant in all {
        found = found.beside(measure_of(&invariant.pred, algs));
    }
    found
}
