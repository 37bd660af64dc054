//! Updates in which each algebraic variable is replaced.

ghost use Rattle.std.specs.Prelude.{◌≡◌, IfOk};
ghost use Rattle.cif_net_expr.specs.View.{view_update, view_updates, view_update_branches};
ghost use Rattle.cif_net_model.specs.Inline.{update_replaced, updates_replaced, update_branches_replaced};
ghost use Rattle.cif_alg_unfold.specs.Tables.{by_table};

use crate::nodes::update_branch;
use crate::replacing::Replacing;
use cif_base::{Boxed, Items, Memory};
use cif_net_expr::{NetUpdate, NetUpdateBranch};

impl<'m> Replacing<'m> {
    #[cycle(updates)]
    pub fn updates(&self, all: &[NetUpdate]) -> Result<Items<NetUpdate>, Memory>
        ensures { IfOk result (λ x. view_updates x ≡ updates_replaced (by_table self.now.by.now) (view_updates all.now)) }
    {
        let mut made = Items::new(self.alloc);
        for one in all {
            made.push(self.update(one)?.into_inner())?;
        }
        Ok(made)
    }

    #[cycle(updates)]
    fn update(&self, update: &NetUpdate) -> Result<Boxed<NetUpdate>, Memory>
        ensures { IfOk result (λ x. view_update x ≡ update_replaced (by_table self.now.by.now) (view_update update.now)) }
    {
        match update {
            NetUpdate::Set { var, value } => {
                let value = self.expr(value)?.into_inner();
                Boxed::new(self.alloc, NetUpdate::Set { var: *var, value })
            }
            NetUpdate::If { branches, other } => {
                let branches = self.update_branches(branches.as_slice())?;
                let other = self.updates(other.as_slice())?;
                Boxed::new(self.alloc, NetUpdate::If { branches, other })
            }
        }
    }

    #[cycle(updates)]
    fn update_branches(&self, all: &[NetUpdateBranch]) -> Result<Items<NetUpdateBranch>, Memory>
        ensures { IfOk result (λ x. view_update_branches x
            ≡ update_branches_replaced (by_table self.now.by.now) (view_update_branches all.now)) }
    {
        let mut made = Items::new(self.alloc);
        for one in all {
            let cond = self.expr(&one.cond)?;
            let updates = self.updates(one.updates.as_slice())?;
            made.push(update_branch(cond, updates))?;
        }
        Ok(made)
    }
}
