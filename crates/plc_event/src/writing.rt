//! The statements of updates (CIF 3 language reference, "Edges"; IEC 61131-3, "Statements").

ghost use Rattle.std.specs.Prelude.{◌≡◌, ◌+◌, map, slice_get, IfOk, OnOk};
ghost use Rattle.cif_net_expr.specs.View.{view, view_update, view_update_branches, view_updates};
ghost use Rattle.cif_net.specs.View.{net_tree};
ghost use Rattle.st_ast.specs.Tree.{append, assign, stms};
ghost use Rattle.st_ast.specs.View as st;
ghost use Rattle.plc_expr.specs.Texts.{before, temps, text};
ghost use Rattle.plc_expr.specs.Written.{naming_of};
ghost use Rattle.plc_event_model.specs.Writes as w;
ghost use Rattle.plc_event.specs.Writers.{Keeps, condition_texts, joined, new_names_of};

use crate::ranges::range_test;
use crate::selecting::chosen;
use cif_base::{Items, Memory, Text};
use cif_net::{Net, NetExpr, NetUpdate, NetUpdateBranch};
use plc_expr::{Draft, Names};
use plc_expr_walk::written;
use st_ast::{StBranch, StExpr, Stmt};
use std::alloc::Global;

/// The names of the mark that new values are in their ranges, and of the new values of variables, by number.
#[derive(Drop)]
pub struct NewTexts {
    pub in_range: Text,
    pub next: Items<Text>,
}

impl NewTexts {
    /// Room for the names of a net, which are empty at first.
    pub fn new(alloc: Global, net: &Net) -> Result<NewTexts, Memory> {
        let mut next = Items::new(alloc);
        for _variable in 0..net.vars.len() {
            next.push(Text::new(alloc))?;
        }
        let in_range = Text::new(alloc);
        Ok(NewTexts { in_range, next })
    }

    /// The name of the new value of a variable.
    pub(crate) fn next_name(&self, alloc: Global, number: u32) -> Result<Text, Memory>
        ensures { IfOk result (λ x. x ≡ (new_names_of self.now).next number) }
    {
        match self.next.get(number as usize) {
            Some(name) => name.copy(alloc),
            None => Ok(Text::new(alloc)),
        }
    }

    /// Keeps the name of the new value of a variable. A variable that the net lacks is reported as `Memory`; no choice has one.
    pub fn keep(&mut self, number: u32, name: Text) -> Result<(), Memory>
        ensures { OnOk result (Keeps self.old self.new number name) }
    {
        let at = number as usize;
        if at >= self.next.len() {
            return Err(Memory);
        }
        self.next.set(at, name);
        Ok(())
    }
}

/// Branches, and the number of the next own variable.
#[derive(Drop)]
struct Bodies {
    branches: Items<StBranch>,
    next: u32,
}

/// What the statements of updates are written with.
#[derive(Clone, Copy)]
pub struct Writer<'a> {
    pub alloc: Global,
    pub net: &'a Net,
    pub names: &'a Names,
    pub new: &'a NewTexts,
}

impl<'a> Writer<'a> {
    /// Adds the statements that compute new values, from the last update to the first.
    #[cycle(writes)]
    pub(crate) fn writes(&self, updates: &[NetUpdate], draft: &mut Draft) -> Result<(), Memory>
        ensures next { OnOk result (draft.new.next ≡ draft.old.next + w.updates_temps (view_updates updates.now)) }
        ensures before { OnOk result (st.view_stmts draft.new.statements ≡ append (st.view_stmts draft.old.statements)
            (w.writes (net_tree self.now.net.now) (naming_of self.now.names.now) (new_names_of self.now.new.now) draft.old.next (view_updates updates.now))) }
    {
        for at in (0..updates.len()).rev() {
            self.write(&updates[at], draft)?;
        }
        Ok(())
    }

    #[cycle(writes)]
    fn write(&self, update: &NetUpdate, draft: &mut Draft) -> Result<(), Memory>
        ensures next { OnOk result (draft.new.next ≡ draft.old.next + w.update_temps (view_update update.now)) }
        ensures before { OnOk result (st.view_stmts draft.new.statements ≡ append (st.view_stmts draft.old.statements)
            (w.write (net_tree self.now.net.now) (naming_of self.now.names.now) (new_names_of self.now.new.now) draft.old.next (view_update update.now))) }
    {
        match update {
            NetUpdate::Set { var, value } => self.set(*var, value, draft),
            NetUpdate::If { branches, other } => {
                let conditions = self.conditions(branches.as_slice(), draft)?;
                let made = self.bodies(branches.as_slice(), conditions, draft.next)?;
                let rest = self.body(other.as_slice(), made.next)?;
                self.choose(made.branches, rest, draft)
            }
        }
    }

    /// Adds the statements that compute the new value of a variable, and test it if its range is tested.
    fn set(&self, var: u32, value: &NetExpr, draft: &mut Draft) -> Result<(), Memory>
        ensures next { OnOk result (draft.new.next ≡ draft.old.next + temps (view value.now)) }
        ensures before { OnOk result (st.view_stmts draft.new.statements ≡ append (st.view_stmts draft.old.statements)
            (append (before (naming_of self.now.names.now) draft.old.next (view value.now))
            (stms (assign ((new_names_of self.now.new.now).next var) (text (naming_of self.now.names.now) draft.old.next (view value.now)))
            (w.range_test (new_names_of self.now.new.now) var (slice_get (net_tree self.now.net.now).vars var))))) }
    {
        let text = written(value, self.alloc, self.names, draft)?;
        let target = self.new.next_name(self.alloc, var)?;
        let value = text.into_inner();
        draft.statements.push(Stmt::Assign { target, value })?;
        let tests = range_test(self.alloc, self.net, self.new, var)?;
        draft.statements.append(tests)?;
        Ok(())
    }

    /// Adds the statement of the first branch whose condition holds, and else `other`, from which the numbers go on.
    #[tactic(auto, using(plc_expr_walk::proofs::Joining::statements))]
    fn choose(
        &self,
        branches: Items<StBranch>,
        other: Draft,
        draft: &mut Draft,
    ) -> Result<(), Memory>
        ensures next { OnOk result (draft.new.next ≡ other.next) }
        ensures before { OnOk result (st.view_stmts draft.new.statements ≡ append (st.view_stmts draft.old.statements)
            (w.chosen (st.view_branches branches) (st.view_stmts other.statements))) }
    {
        let Draft { statements, next } = other;
        draft.next = next;
        draft
            .statements
            .append(chosen(self.alloc, branches, statements)?)?;
        Ok(())
    }

    /// The conditions of branches.
    fn conditions(
        &self,
        branches: &[NetUpdateBranch],
        draft: &mut Draft,
    ) -> Result<Items<StExpr>, Memory>
        ensures text { IfOk result (λ all. map st.view_expr all
            ≡ condition_texts (naming_of self.now.names.now) draft.old.next (view_update_branches branches.now)) }
        ensures next { OnOk result (draft.new.next ≡ draft.old.next + w.conditions_temps (view_update_branches branches.now)) }
        ensures before { OnOk result (st.view_stmts draft.new.statements ≡ append (st.view_stmts draft.old.statements)
            (w.conditions_before (naming_of self.now.names.now) draft.old.next (view_update_branches branches.now))) }
    {
        let mut all = Items::new(self.alloc);
        for branch in branches {
            let cond = written(&branch.cond, self.alloc, self.names, draft)?;
            all.push(cond.into_inner())?;
        }
        Ok(all)
    }

    /// The branches with these conditions.
    #[cycle(writes)]
    fn bodies(
        &self,
        branches: &[NetUpdateBranch],
        mut conditions: Items<StExpr>,
        next: u32,
    ) -> Result<Bodies, Memory>
        ensures branches { IfOk result (λ all. st.view_branches all.branches
            ≡ joined (net_tree self.now.net.now) (naming_of self.now.names.now) (new_names_of self.now.new.now) next
            (map st.view_expr conditions) (view_update_branches branches.now)) }
        ensures next { IfOk result (λ all. all.next ≡ next + w.bodies_temps (view_update_branches branches.now)) }
    {
        conditions.reverse();
        let mut next = next;
        let mut all = Items::new(self.alloc);
        for branch in branches {
            let Some(cond) = conditions.pop() else {
                return Err(Memory);
            };
            let Draft {
                statements: body,
                next: after,
            } = self.body(branch.updates.as_slice(), next)?;
            next = after;
            all.push(StBranch { cond, body })?;
        }
        Ok(Bodies {
            branches: all,
            next,
        })
    }

    /// The statements of updates alone. Their own variables are numbered from `next` on.
    #[cycle(writes)]
    fn body(&self, updates: &[NetUpdate], next: u32) -> Result<Draft, Memory>
        ensures next { IfOk result (λ draft. draft.next ≡ next + w.updates_temps (view_updates updates.now)) }
        ensures before { IfOk result (λ draft. st.view_stmts draft.statements
            ≡ w.writes (net_tree self.now.net.now) (naming_of self.now.names.now) (new_names_of self.now.new.now) next (view_updates updates.now)) }
    {
        let mut draft = Draft {
            statements: Items::new(self.alloc),
            next,
        };
        self.writes(updates, &mut draft)?;
        Ok(draft)
    }
}
