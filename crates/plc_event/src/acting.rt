//! What a choice does whose test holds.

ghost use Rattle.std.specs.Prelude.{◌≡◌, ◌+◌, true, map, IfOk, OnOk};
ghost use Rattle.cif_net_expr.specs.View.{view_updates};
ghost use Rattle.cif_net.specs.View.{choice_tree, net_tree};
ghost use Rattle.st_ast.specs.Tree.{append, assign, branches as branches_with, choice as choice_with, named, no_branches, no_other, no_stms, stms, stms_of, truth};
ghost use Rattle.st_ast.specs.View.{view_stmt, view_stmts};
ghost use Rattle.plc_expr.specs.Written.{naming_of};
ghost use Rattle.plc_frame.specs.Events.{moves_text};
ghost use Rattle.plc_event_model.specs.Acts as a;
ghost use Rattle.plc_event_model.specs.Keeps as k;
ghost use Rattle.plc_event_model.specs.Writes as w;
ghost use Rattle.plc_event_model.specs.Writes.{chosen, updates_temps};
ghost use Rattle.plc_event.specs.After.{AreSame};
ghost use Rattle.plc_event.specs.Making.{acted, all_set};
ghost use Rattle.plc_event.specs.Writers.{new_names_of};

use crate::keeping::Scratch;
use crate::marks::{Marks, once_of, without};
use crate::moves::{marking, moving};
use crate::selecting::tested;
use crate::targets::{add_surely_set, any_tested, targets_of};
use crate::writing::Writer;
use cif_base::{Boxed, Items, Memory, Text};
use cif_net::{Choice, NetUpdate};
use plc_expr::Draft;
use st_ast::{StExpr, Stmt};
use std::alloc::Global;

/// The variables that updates assign, each once, and those of them whose new value may be the old one.
#[derive(Drop)]
pub struct Assigned {
    pub all: Items<u32>,
    pub may_stay: Items<u32>,
}

fn surely_set(alloc: Global, updates: &[NetUpdate]) -> Result<Items<u32>, Memory>
    ensures { IfOk result (λ all. all ≡ a.surely_set (view_updates updates.now)) }
{
    let mut all = Items::new(alloc);
    add_surely_set(updates, &mut all)?;
    Ok(all)
}

/// The variables that updates assign.
fn assigned_by(alloc: Global, updates: &[NetUpdate], marks: &mut Marks) -> Result<Assigned, Memory>
    ensures all { IfOk result (λ vars. vars.all ≡ a.assigned_vars (view_updates updates.now)) }
    ensures may_stay { IfOk result (λ vars. vars.may_stay ≡ a.may_stay (view_updates updates.now)) }
{
    let targets = targets_of(alloc, updates)?;
    let surely = surely_set(alloc, updates)?;
    let all = once_of(alloc, targets.as_slice(), marks)?;
    let may_stay = without(alloc, all.as_slice(), surely.as_slice(), marks)?;
    Ok(Assigned { all, may_stay })
}

impl<'a> Writer<'a> {
    /// The new value of a variable starts as the old one.
    fn copy(&self, var: u32) -> Result<Boxed<Stmt>, Memory>
        ensures { IfOk result
            (λ s. view_stmt s ≡ a.copy (naming_of self.now.names.now) (new_names_of self.now.new.now) var) }
    {
        let target = self.new.next_name(self.alloc, var)?;
        let value = self.names.variable(self.alloc, var)?.into_inner();
        Boxed::new(self.alloc, Stmt::Assign { target, value })
    }

    /// The new value of a variable is stored.
    fn store(&self, var: u32) -> Result<Boxed<Stmt>, Memory>
        ensures { IfOk result
            (λ s. view_stmt s ≡ a.store (naming_of self.now.names.now) (new_names_of self.now.new.now) var) }
    {
        let target = self.variable_name(var)?;
        let value = StExpr::Named(self.new.next_name(self.alloc, var)?);
        Boxed::new(self.alloc, Stmt::Assign { target, value })
    }

    fn variable_name(&self, var: u32) -> Result<Text, Memory>
        ensures { IfOk result (λ x. x ≡ (naming_of self.now.names.now).variable var) }
    {
        match self.names.variables.get(var as usize) {
            Some(name) => name.copy(self.alloc),
            None => Ok(Text::new(self.alloc)),
        }
    }

    fn copies(&self, vars: &[u32], all: &mut Items<Stmt>) -> Result<(), Memory>
        ensures { OnOk result (view_stmts all.new ≡ append (view_stmts all.old)
            (stms_of (map (a.copy (naming_of self.now.names.now) (new_names_of self.now.new.now)) vars.now))) }
    {
        for var in vars {
            all.push(self.copy(*var)?.into_inner())?;
        }
        Ok(())
    }

    fn stores(&self, vars: &[u32]) -> Result<Items<Stmt>, Memory>
        ensures { IfOk result (λ all. view_stmts all
            ≡ stms_of (map (a.store (naming_of self.now.names.now) (new_names_of self.now.new.now)) vars.now)) }
    {
        let mut all = Items::new(self.alloc);
        for var in vars {
            all.push(self.store(*var)?.into_inner())?;
        }
        Ok(all)
    }

    /// The statements that compute the new values. Their own variables are numbered from `next` on.
    #[tactic(auto, using(plc_expr_walk::proofs::Joining::statements))]
    fn computed(&self, updates: &[NetUpdate], may_stay: &[u32], next: u32) -> Result<Draft, Memory>
        requires { may_stay.now ≡ a.may_stay (view_updates updates.now) }
        ensures next { IfOk result (λ draft. draft.next ≡ next + updates_temps (view_updates updates.now)) }
        ensures before { IfOk result (λ draft. view_stmts draft.statements
            ≡ a.computed (net_tree self.now.net.now) (naming_of self.now.names.now) (new_names_of self.now.new.now) next (view_updates updates.now)) }
    {
        let mut draft = Draft {
            statements: Items::new(self.alloc),
            next,
        };
        self.copies(may_stay, &mut draft.statements)?;
        self.writes(updates, &mut draft)?;
        Ok(draft)
    }

    /// Stores the new values, makes the moves, and sets these marks.
    #[tactic(auto, using(plc_expr_walk::proofs::Joining::statements))]
    fn stored(&self, choice: &Choice, all: &[u32], marks: &[Text]) -> Result<Items<Stmt>, Memory>
        requires { all.now ≡ a.assigned_vars (choice_tree choice.now).writes }
        ensures { IfOk result (λ ss. view_stmts ss ≡ a.stored (naming_of self.now.names.now) (new_names_of self.now.new.now)
            (choice_tree choice.now).writes (moves_text (net_tree self.now.net.now) (choice_tree choice.now).moves (all_set marks.now))) }
    {
        let mut stores = self.stores(all)?;
        stores.append(moving(self.alloc, self.net, choice.moves.as_slice(), marks)?)?;
        Ok(stores)
    }

    /// The statements where the mark that new values are in range is set.
    fn if_in_range(&self, body: Items<Stmt>) -> Result<Boxed<Stmt>, Memory>
        ensures { IfOk result (λ s. view_stmt s ≡ choice_with (branches_with (named (new_names_of self.now.new.now).in_range) (view_stmts body) no_branches) no_other) }
    {
        let mark = self.new.in_range.copy(self.alloc)?;
        tested(
            self.alloc,
            Boxed::new(self.alloc, StExpr::Named(mark))?,
            body,
        )
    }

    /// The new values are computed, and where all of them are in range these statements follow.
    #[tactic(auto, using(plc_expr_walk::proofs::Joining::statements))]
    fn where_in_range(
        &self,
        computed: Items<Stmt>,
        body: Items<Stmt>,
    ) -> Result<Items<Stmt>, Memory>
        ensures { IfOk result (λ all. view_stmts all ≡ stms (assign (new_names_of self.now.new.now).in_range (truth true))
            (append (view_stmts computed) (chosen (branches_with (named (new_names_of self.now.new.now).in_range) (view_stmts body) no_branches) no_stms))) }
    {
        let start = marking(self.alloc, &self.new.in_range, true)?.into_inner();
        let mut all = Items::only(self.alloc, start)?;
        all.append(computed)?;
        all.push(self.if_in_range(body)?.into_inner())?;
        Ok(all)
    }

    /// The new values are computed, and then these statements follow, where a new value is tested only if all are in range.
    #[tactic(auto, using(plc_expr_walk::proofs::Joining::statements))]
    fn acting(
        &self,
        updates: &[NetUpdate],
        computed: Items<Stmt>,
        body: Items<Stmt>,
    ) -> Result<Items<Stmt>, Memory>
        ensures { IfOk result (λ all. view_stmts all ≡ acted (w.any_tested (net_tree self.now.net.now) (view_updates updates.now))
            (new_names_of self.now.new.now).in_range (view_stmts computed) (view_stmts body)) }
    {
        if any_tested(self.net, updates) {
            return self.where_in_range(computed, body);
        }
        let mut all = computed;
        all.append(body)?;
        Ok(all)
    }

    /// What the choice does: the new values are computed, and where all of them are in range and the state invariants hold of
    /// them, they are stored, the moves are made, and these marks are set. Its own variables are numbered from `next` on.
    pub(crate) fn act(
        &self,
        choice: &Choice,
        marks: &[Text],
        next: u32,
        scratch: &mut Scratch,
    ) -> Result<Draft, Memory>
        requires { AreSame scratch.now.after self.now.names.now }
        ensures same { OnOk result (AreSame scratch.new.after self.now.names.now) }
        ensures next { IfOk result (λ draft. draft.next ≡ next + (updates_temps (choice_tree choice.now).writes + k.kept_temps (net_tree self.now.net.now) (choice_tree choice.now))) }
        ensures act { IfOk result (λ draft. view_stmts draft.statements
            ≡ a.act (net_tree self.now.net.now) (naming_of self.now.names.now) (new_names_of self.now.new.now) next (choice_tree choice.now).writes
            (k.where_kept (net_tree self.now.net.now) (naming_of self.now.names.now) (new_names_of self.now.new.now) (next + updates_temps (choice_tree choice.now).writes) (choice_tree choice.now)
            (a.stored (naming_of self.now.names.now) (new_names_of self.now.new.now) (choice_tree choice.now).writes
            (moves_text (net_tree self.now.net.now) (choice_tree choice.now).moves (all_set marks.now))))) }
    {
        let updates = choice.writes.as_slice();
        let vars = assigned_by(self.alloc, updates, &mut scratch.changes.variables)?;
        let stored = self.stored(choice, vars.all.as_slice(), marks)?;
        let Draft {
            statements: computed,
            next,
        } = self.computed(updates, vars.may_stay.as_slice(), next)?;
        let Draft {
            statements: kept,
            next,
        } = self.where_kept(choice, stored, next, scratch)?;
        let statements = self.acting(updates, computed, kept)?;
        Ok(Draft { statements, next })
    }
}
