//! What a choice may change, and the state invariants that are tested after it: those that depend on that.

ghost use Rattle.std.specs.Prelude.{◌≡◌, ℕ, filter, is_some, length, map, IfOk, OnOk};
ghost use Rattle.std.specs.List.{list_any};
ghost use Rattle.cif_net_expr.specs.View.{view, view_branches, view_exprs, view_factors, view_form, view_terms};
ghost use Rattle.cif_net_model.specs.Reads as r;
ghost use Rattle.cif_net.specs.View.{choice_tree, move_tree, net_tree};
ghost use Rattle.plc_frame.specs.Events.{target_of};
ghost use Rattle.plc_event_model.specs.Keeps as k;
ghost use Rattle.plc_event.specs.Changed.{MarksChanges, is_dependent, is_changed};
ghost use Rattle.plc_event.specs.Marked.{is_marked};
ghost use Rattle.plc_event.specs.Moved.{takes_edge};

use crate::marks::Marks;
use crate::moves::target;
use crate::targets::targets_of;
use cif_base::{Items, Memory};
use cif_net::{Choice, Move, Net, NetBranch, NetExpr, NetFactor, NetForm, NetTerm};
use std::alloc::Global;

/// Marks on what a choice may change: the variables that it assigns, and the automata of which it takes an edge.
#[derive(Drop)]
pub struct Changes {
    pub variables: Marks,
    pub places: Marks,
}

impl Changes {
    /// Marks for the variables and the automata of a net.
    pub(crate) fn new(alloc: Global, net: &Net) -> Result<Changes, Memory> {
        let variables = Marks::new(alloc, net.vars.len())?;
        let places = Marks::new(alloc, net.autos.len())?;
        Ok(Changes { variables, places })
    }

    /// Marks what the choice may change, and nothing else.
    fn start(&mut self, alloc: Global, net: &Net, choice: &Choice) -> Result<(), Memory>
        ensures { OnOk result (MarksChanges (net_tree net.now) (choice_tree choice.now) self.new) }
    {
        let targets = targets_of(alloc, choice.writes.as_slice())?;
        self.variables.start_with(targets.as_slice())?;
        mark_moved(net, choice.moves.as_slice(), &mut self.places)
    }

    /// Whether an expression names something that is marked.
    #[cycle(names)]
    #[tactic(auto, using(crate::proofs::Changing::any_joined))]
    fn touches(&self, expr: &NetExpr) -> bool
        ensures { result ≡ list_any (is_changed self.now) (r.names_in (view expr.now)) }
    {
        self.touches_form(&expr.form)
    }

    #[cycle(names)]
    #[tactic(auto, using(crate::proofs::Changing::any_joined))]
    fn touches_form(&self, form: &NetForm) -> bool
        ensures { result ≡ list_any (is_changed self.now) (r.form_names (view_form form.now)) }
    {
        match form {
            NetForm::Var(number) => self.variables.has(*number),
            NetForm::Loc { auto, place: _ } => self.places.has(*auto),
            NetForm::Neg(e) | NetForm::Plus(e) | NetForm::Not(e) | NetForm::Abs(e) => {
                self.touches(e.get())
            }
            NetForm::Min(a, b) | NetForm::Max(a, b) => {
                self.touches(a.get()) || self.touches(b.get())
            }
            NetForm::Implies(a, b) | NetForm::Iff(a, b) => {
                self.touches(a.get()) || self.touches(b.get())
            }
            NetForm::Compare { left, op: _, right } => {
                self.touches(left.get()) || self.touches(right.get())
            }
            NetForm::Sum { first, rest } => {
                self.touches(first.get()) || self.touches_terms(rest.as_slice())
            }
            NetForm::Product { first, rest } => {
                self.touches(first.get()) || self.touches_factors(rest.as_slice())
            }
            NetForm::And(parts) | NetForm::Or(parts) => self.touches_list(parts.as_slice()),
            NetForm::If { branches, other } => {
                self.touches_branches(branches.as_slice()) || self.touches(other.get())
            }
            _ => false,
        }
    }

    #[cycle(names)]
    #[tactic(auto, using(crate::proofs::Changing::any_joined))]
    fn touches_terms(&self, parts: &[NetTerm]) -> bool
        ensures { result ≡ list_any (is_changed self.now) (r.term_names (view_terms parts.now)) }
    {
        for part in parts {
            if self.touches(&part.value) {
                return true;
            }
        }
        false
    }

    #[cycle(names)]
    #[tactic(auto, using(crate::proofs::Changing::any_joined))]
    fn touches_factors(&self, parts: &[NetFactor]) -> bool
        ensures { result ≡ list_any (is_changed self.now) (r.factor_names (view_factors parts.now)) }
    {
        for part in parts {
            if self.touches(&part.value) {
                return true;
            }
        }
        false
    }

    #[cycle(names)]
    #[tactic(auto, using(crate::proofs::Changing::any_joined))]
    fn touches_list(&self, parts: &[NetExpr]) -> bool
        ensures { result ≡ list_any (is_changed self.now) (r.list_names (view_exprs parts.now)) }
    {
        for part in parts {
            if self.touches(part) {
                return true;
            }
        }
        false
    }

    #[cycle(names)]
    #[tactic(auto, using(crate::proofs::Changing::any_joined))]
    fn touches_branches(&self, branches: &[NetBranch]) -> bool
        ensures { result ≡ list_any (is_changed self.now) (r.branch_names (view_branches branches.now)) }
    {
        for branch in branches {
            if self.touches(&branch.cond) || self.touches(&branch.value) {
                return true;
            }
        }
        false
    }

    /// Whether the invariant with this number names something that is marked.
    fn depends(&self, net: &Net, number: u32) -> bool
        ensures { result ≡ is_dependent (net_tree net.now) self.now number }
    {
        match net.invariants.get(number as usize) {
            Some(found) => self.touches(&found.pred),
            None => false,
        }
    }

    /// Those of these invariants that name something that is marked.
    fn among(&self, alloc: Global, net: &Net, numbers: &[u32]) -> Result<Items<u32>, Memory>
        ensures { IfOk result (λ all. all ≡ filter (is_dependent (net_tree net.now) self.now) numbers.now) }
    {
        let mut all = Items::new(alloc);
        for number in numbers {
            if self.depends(net, *number) {
                all.push(*number)?;
            }
        }
        Ok(all)
    }
}

/// Marks the automata of which an edge is taken, and no other one.
fn mark_moved(net: &Net, moves: &[Move], places: &mut Marks) -> Result<(), Memory>
    ensures { OnOk result ((j : ℕ) → is_marked places.new.round places.new.last j ≡ takes_edge (net_tree net.now) (map move_tree moves.now) j) }
{
    places.restart()?;
    for at in (0..moves.len()).rev() {
        let step = &moves[at];
        places.turn(step.auto, takes_an_edge(net, *step))?;
    }
    Ok(())
}

/// Whether the move takes an edge.
fn takes_an_edge(net: &Net, step: Move) -> bool
    ensures { result ≡ is_some (target_of (net_tree net.now) (move_tree step)) }
{
    target(net, step).is_some()
}

/// The numbers of the state invariants that are tested after the choice. The time is linear in the choice and in its invariants.
pub fn invariants_after(
    alloc: Global,
    net: &Net,
    choice: &Choice,
    changes: &mut Changes,
) -> Result<Items<u32>, Memory>
    ensures invariants { IfOk result (λ all. k.invariants_at (net_tree net.now) all ≡ k.asked (net_tree net.now) (choice_tree choice.now)) }
    ensures count { IfOk result (λ all. length all ≡ length (k.asked (net_tree net.now) (choice_tree choice.now))) }
{
    changes.start(alloc, net, choice)?;
    changes.among(alloc, net, choice.invariants.as_slice())
}
