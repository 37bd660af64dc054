//! What the expressions of an edge weigh together, and what one expression weighs.

ghost use Rattle.std.specs.Prelude.{◌≡◌, None, IfOk};
ghost use Rattle.cif_ast.specs.View.{view, view_update, view_updates, view_update_branches};
ghost use Rattle.cif_inst_model.specs.Flat.{sent_tree};
ghost use Rattle.cif_source.specs.Source.{EdgeTree, UseTree, edge_tree, use_tree};
ghost use Rattle.cif_inst_names.specs.Looking.{AreNamesOf, component_at};
ghost use Rattle.cif_inst_sizes.specs.Counted as counted;
ghost use Rattle.cif_inst_sizes.specs.Weights.{AreWeights, Knows, alg_by, expression_measure, names_by, use_weight};

use crate::measuring::Measurer;
use crate::weights::Weights;
use cif_alg_measure::Measure;
use cif_ast::{Edge, EventUse, Expr, Role, Update, UpdateBranch};
use cif_base::Memory;
use cif_inst_names::Looking;

impl<'a, 'b, 'c> Measurer<'a, 'b, 'c> {
    #[cycle(updates)]
    fn updates(&self, all: &[Update], before: Measure) -> Result<Measure, Memory>
        requires { Knows self.now }
        ensures { IfOk result (λ m. m ≡ counted.updates_counted (names_by self.now) before (view_updates all.now)) }
    {
        let mut found = before;
        for update in all {
            found = self.update(update, found)?;
        }
        Ok(found)
    }

    #[cycle(updates)]
    fn update(&self, update: &Update, before: Measure) -> Result<Measure, Memory>
        requires { Knows self.now }
        ensures { IfOk result (λ m. m ≡ counted.update_counted (names_by self.now) before (view_update update.now)) }
    {
        match update {
            Update::Set { target: _, value } => Ok(before.beside(self.expr(value)?)),
            Update::If { branches, other } => {
                let branched = self.update_branches(branches.as_slice(), before)?;
                self.updates(other.as_slice(), branched)
            }
        }
    }

    #[cycle(updates)]
    fn update_branches(&self, all: &[UpdateBranch], before: Measure) -> Result<Measure, Memory>
        requires { Knows self.now }
        ensures { IfOk result (λ m. m ≡ counted.update_branches_counted (names_by self.now) before (view_update_branches all.now)) }
    {
        let mut found = before;
        for branch in all {
            let tested = found.beside(self.conditions(branch.conds.as_slice())?);
            found = self.updates(branch.updates.as_slice(), tested)?;
        }
        Ok(found)
    }
}

/// The measure of all expressions that an edge of a component has in the net for a use of an event that sends no value: its guard and
/// those of its updates. Counts stop one past their limits. The time is linear in the edge, whatever arguments and definitions stand
/// for its names.
pub fn edge_measure(
    looking: &Looking<'_, '_>,
    weights: &Weights,
    component: u32,
    edge: &Edge,
) -> Result<Measure, Memory>
    requires names { AreNamesOf looking.now }
    requires weights { AreWeights looking.now weights.now }
    ensures { IfOk result (λ m. (u : UseTree) → sent_tree u.role ≡ None → m ≡ use_weight (alg_by looking.now weights.now) (component_at looking.now component) (edge_tree edge.now) u) }
{
    let measurer = Measurer {
        looking,
        weights,
        component,
    };
    let guard = measurer.conditions(edge.guards.as_slice())?;
    measurer.updates(edge.updates.as_slice(), guard)
}

/// The measure that an expression of a component has in the net. Counts stop one past their limits. The time is linear in the
/// expression, whatever arguments and definitions stand for its names.
pub fn value_measure(
    looking: &Looking<'_, '_>,
    weights: &Weights,
    component: u32,
    value: &Expr,
) -> Result<Measure, Memory>
    requires names { AreNamesOf looking.now }
    requires weights { AreWeights looking.now weights.now }
    ensures { IfOk result (λ m. m ≡ expression_measure (alg_by looking.now weights.now) (component_at looking.now component) (view value.now)) }
{
    let measurer = Measurer {
        looking,
        weights,
        component,
    };
    measurer.expr(value)
}

/// The measure of all expressions that an edge of a component has in the net for a use of an event, where `shared` is that for uses
/// which send no value. Counts stop one past their limits. The time is linear in the use.
pub fn use_measure(
    looking: &Looking<'_, '_>,
    weights: &Weights,
    component: u32,
    shared: Measure,
    event_use: &EventUse,
) -> Result<Measure, Memory>
    requires names { AreNamesOf looking.now }
    requires weights { AreWeights looking.now weights.now }
    ensures { IfOk result (λ m. (e : EdgeTree) → ((u : UseTree) → sent_tree u.role ≡ None → shared ≡ use_weight (alg_by looking.now weights.now) (component_at looking.now component) e u)
        → m ≡ use_weight (alg_by looking.now weights.now) (component_at looking.now component) e (use_tree event_use.now)) }
{
    match &event_use.role {
        Role::Send(Some(value)) => {
            let sent = value_measure(looking, weights, component, value)?;
            Ok(shared.beside(sent))
        }
        Role::Send(None) | Role::Sync | Role::Recv => Ok(shared),
    }
}
