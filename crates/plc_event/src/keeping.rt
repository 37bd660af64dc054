//! The test of state invariants after a choice, over the new values and places.

ghost use Rattle.std.specs.Prelude.{◌≡◌, ◌+◌, ◌++◌, map, IfOk, OnOk};
ghost use Rattle.cif_net_expr.specs.View.{view};
ghost use Rattle.cif_net_model.specs.Listing.{all_hold, exprs_of};
ghost use Rattle.cif_net.specs.View.{choice_tree, net_tree};
ghost use Rattle.st_ast.specs.Tree.{append};
ghost use Rattle.st_ast.specs.View.{view_expr, view_stmts};
ghost use Rattle.plc_expr.specs.Texts.{before, list_before, list_temps, temps, text, texts};
ghost use Rattle.plc_expr.specs.Written.{naming_of};
ghost use Rattle.plc_frame.specs.Events as e;
ghost use Rattle.plc_event_model.specs.Keeps as k;
ghost use Rattle.plc_event.specs.After.{AreAfter, AreSame};
ghost use Rattle.plc_event.specs.Names.{AreNames};
ghost use Rattle.plc_event.specs.Writers.{new_names_of};

use crate::changes::{Changes, invariants_after};
use crate::naming::names_of;
use crate::selecting::tested;
use crate::writing::Writer;
use cif_base::{Items, Memory};
use cif_net::{Choice, Net};
use plc_expr::{Draft, Names, conjunction_of};
use plc_expr_walk::written;
use st_ast::{StExpr, Stmt};
use std::alloc::Global;

/// What is used again for each choice: marks on what it may change, and names, which are those after the choice while its
/// state invariants are written, and else those before.
#[derive(Drop)]
pub struct Scratch {
    pub changes: Changes,
    pub after: Names,
}

impl Scratch {
    /// Marks and names for the choices of a net.
    pub fn new(alloc: Global, net: &Net) -> Result<Scratch, Memory>
        ensures { IfOk result (λ x. AreNames (net_tree net.now) x.after) }
    {
        let changes = Changes::new(alloc, net)?;
        let after = names_of(alloc, net)?;
        Ok(Scratch { changes, after })
    }
}

impl<'a> Writer<'a> {
    /// The texts of these invariants; the statements before them are added to the draft. An invariant that the net lacks is reported
    /// as `Memory`; no choice has one.
    fn invariants_written(
        &self,
        numbers: &[u32],
        names: &Names,
        draft: &mut Draft,
    ) -> Result<Items<StExpr>, Memory>
        ensures text { IfOk result (λ all. map view_expr all
            ≡ texts (naming_of names.now) draft.old.next (exprs_of (k.invariants_at (net_tree self.now.net.now) numbers.now))) }
        ensures next { OnOk result (draft.new.next ≡ draft.old.next + list_temps (exprs_of (k.invariants_at (net_tree self.now.net.now) numbers.now))) }
        ensures before { OnOk result (view_stmts draft.new.statements ≡ append (view_stmts draft.old.statements)
            (list_before (naming_of names.now) draft.old.next (exprs_of (k.invariants_at (net_tree self.now.net.now) numbers.now)))) }
    {
        let mut all = Items::new(self.alloc);
        for number in numbers {
            let Some(found) = self.net.invariants.get(*number as usize) else {
                return Err(Memory);
            };
            let text = written(&found.pred, self.alloc, names, draft)?;
            all.push(text.into_inner())?;
        }
        Ok(all)
    }

    /// These statements, where all of these invariants hold. The own variables of the invariants are numbered from `next` on.
    #[tactic(auto, using(plc_expr_walk::proofs::Joining::statements))]
    fn where_all_hold(
        &self,
        numbers: &[u32],
        names: &Names,
        body: Items<Stmt>,
        next: u32,
    ) -> Result<Draft, Memory>
        ensures next { IfOk result (λ draft. draft.next ≡ next + temps (all_hold (k.invariants_at (net_tree self.now.net.now) numbers.now))) }
        ensures statements { IfOk result (λ draft. view_stmts draft.statements
            ≡ append (before (naming_of names.now) next (all_hold (k.invariants_at (net_tree self.now.net.now) numbers.now)))
            (e.tested (text (naming_of names.now) next (all_hold (k.invariants_at (net_tree self.now.net.now) numbers.now))) (view_stmts body))) }
    {
        let mut draft = Draft {
            statements: Items::new(self.alloc),
            next,
        };
        let texts = self.invariants_written(numbers, names, &mut draft)?;
        let test = conjunction_of(self.alloc, texts)?;
        let checked = tested(self.alloc, test, body)?;
        draft.statements.push(checked.into_inner())?;
        Ok(draft)
    }

    /// These statements, where the state invariants hold that are tested after the choice.
    pub(crate) fn where_kept(
        &self,
        choice: &Choice,
        body: Items<Stmt>,
        next: u32,
        scratch: &mut Scratch,
    ) -> Result<Draft, Memory>
        requires { AreSame scratch.now.after self.now.names.now }
        ensures same { OnOk result (AreSame scratch.new.after self.now.names.now) }
        ensures next { IfOk result (λ draft. draft.next ≡ next + k.kept_temps (net_tree self.now.net.now) (choice_tree choice.now)) }
        ensures kept { IfOk result (λ draft. view_stmts draft.statements
            ≡ k.where_kept (net_tree self.now.net.now) (naming_of self.now.names.now) (new_names_of self.now.new.now) next (choice_tree choice.now) (view_stmts body)) }
    {
        let dependent = invariants_after(self.alloc, self.net, choice, &mut scratch.changes)?;
        if dependent.is_empty() {
            return Ok(Draft {
                statements: body,
                next,
            });
        }
        self.begin_after(choice, &mut scratch.after)?;
        let kept = self.where_all_hold(dependent.as_slice(), &scratch.after, body, next)?;
        self.end_after(choice, &mut scratch.after)?;
        Ok(kept)
    }
}
