//! The updates of an edge.

ghost use Rattle.std.specs.Prelude.{◌≡◌, ◌<◌, length, IfOk};
ghost use Rattle.cif_ast.specs.View.{view, view_exprs, view_update, view_updates, view_update_branches};
ghost use Rattle.cif_source.specs.Objects.{components_of};
ghost use Rattle.cif_source.specs.Source.{list_of_trees};
ghost use Rattle.cif_net_expr.specs.Tree.{net_set};
ghost use Rattle.cif_net_expr.specs.View as net;
ghost use Rattle.cif_inst_model.specs.Flat.{variable_number, net_update_of, net_updates_of, net_update_branches_of};
ghost use Rattle.cif_inst_model.specs.Translation.{net_of, net_list, conjunction};
ghost use Rattle.cif_inst_names.specs.Looking.{AreNamesOf, source_for, component_at};
ghost use Rattle.cif_inst_names.specs.ReadsNames.{IsHome, home};

use crate::looking::Looking;
use crate::translating::{condition, expression};
use cif_ast::{Expr, Name, Update, UpdateBranch};
use cif_base::{Boxed, Items, Memory};
use cif_net_expr::{NetExpr, NetUpdate, NetUpdateBranch};
use std::alloc::Global;

/// Makes updates of the net from those of a component.
#[derive(Clone, Copy)]
struct Updater<'m> {
    alloc: Global,
    looking: &'m Looking<'m, 'm>,
    component: u32,
}

impl<'m> Updater<'m> {
    #[tactic(auto, unfolding(crate::specs::ReadsNames::IsHome, crate::specs::ReadsNames::home))]
    fn set(&self, target: &Name, value: &Expr) -> Result<Boxed<NetUpdate>, Memory>
        requires { IsHome self.now.looking.now self.now.component }
        ensures { IfOk result (λ x. net.view_update x
            ≡ net_set (variable_number (home self.now.looking.now self.now.component) target.now) (net_of (home self.now.looking.now self.now.component) (view value.now))) }
    {
        let value = expression(self.alloc, self.looking, self.component, value)?.into_inner();
        let var = self.looking.variable(self.component, target);
        Boxed::new(self.alloc, NetUpdate::Set { var, value })
    }

    #[tactic(auto, unfolding(crate::specs::ReadsNames::IsHome, crate::specs::ReadsNames::home))]
    fn condition(&self, conds: &[Expr]) -> Result<Boxed<NetExpr>, Memory>
        requires { IsHome self.now.looking.now self.now.component }
        ensures { IfOk result (λ x. net.view x ≡ conjunction (net_list (home self.now.looking.now self.now.component) (list_of_trees (view_exprs conds.now)))) }
    {
        condition(self.alloc, self.looking, self.component, conds)
    }

    #[cycle(updates)]
    fn updates(&self, all: &[Update]) -> Result<Items<NetUpdate>, Memory>
        requires { IsHome self.now.looking.now self.now.component }
        ensures { IfOk result (λ x. net.view_updates x ≡ net_updates_of (home self.now.looking.now self.now.component) (view_updates all.now)) }
    {
        let mut made = Items::new(self.alloc);
        for one in all {
            made.push(self.update(one)?.into_inner())?;
        }
        Ok(made)
    }

    #[cycle(updates)]
    fn update(&self, update: &Update) -> Result<Boxed<NetUpdate>, Memory>
        requires { IsHome self.now.looking.now self.now.component }
        ensures { IfOk result (λ x. net.view_update x ≡ net_update_of (home self.now.looking.now self.now.component) (view_update update.now)) }
    {
        match update {
            Update::Set { target, value } => self.set(target, value),
            Update::If { branches, other } => {
                let branches = self.branches(branches.as_slice())?;
                let other = self.updates(other.as_slice())?;
                Boxed::new(self.alloc, NetUpdate::If { branches, other })
            }
        }
    }

    #[cycle(updates)]
    fn branches(&self, branches: &[UpdateBranch]) -> Result<Items<NetUpdateBranch>, Memory>
        requires { IsHome self.now.looking.now self.now.component }
        ensures { IfOk result (λ x. net.view_update_branches x
            ≡ net_update_branches_of (home self.now.looking.now self.now.component) (view_update_branches branches.now)) }
    {
        let mut made = Items::new(self.alloc);
        for branch in branches {
            let cond = self.condition(branch.conds.as_slice())?;
            let updates = self.updates(branch.updates.as_slice())?;
            made.push(NetUpdateBranch {
                cond: cond.into_inner(),
                updates,
            })?;
        }
        Ok(made)
    }
}

/// The updates of an edge of a component.
#[tactic(auto, unfolding(crate::specs::ReadsNames::IsHome, crate::specs::ReadsNames::home))]
pub fn updates(
    alloc: Global,
    looking: &Looking,
    component: u32,
    all: &[Update],
) -> Result<Items<NetUpdate>, Memory>
    requires names { AreNamesOf looking.now }
    requires component { component < length (components_of (source_for looking.now)) }
    ensures { IfOk result (λ x. net.view_updates x ≡ net_updates_of (component_at looking.now component) (view_updates all.now)) }
{
    Updater {
        alloc,
        looking,
        component,
    }
    .updates(all)
}
