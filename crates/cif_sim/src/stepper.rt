//! The first steps of a guarded net's events.

ghost use Rattle.std.specs.Prelude.{◌≡◌, ◌<◌, IfNone, IfOk, IfSome, None, OnSome, Some, length, option_map};
ghost use Rattle.cif_system.specs.System.{IsState};
ghost use Rattle.cif_system.specs.Choices.{first_step};
ghost use Rattle.cif_net.specs.Parts.{class_of};
ghost use Rattle.cif_net.specs.View.{state_tree};
ghost use Rattle.cif_eval.specs.Choices.{choice_at, system_of};
ghost use Rattle.cif_sim_model.specs.Runs.{first_event, first_event_of};
ghost use Rattle.cif_sim.specs.Tried.{Fires, Makes, after_at, has_step, has_step_in};
ghost use Rattle.cif_sim.specs.Waking.{AreIdle};

use crate::classes::is_of;
use crate::marks::Marks;
use crate::starts::{count_events, starts};
use crate::tries::{first_choice, step_by};
use cif_base::{Items, Memory};
use cif_eval::Scratch;
use cif_net::{Class, Guarded, State};
use std::alloc::Global;
use std::marker::Model;

/// A guarded net, with the places where the choices of its events begin, and working memory.
#[derive(Drop)]
pub(crate) struct Stepper<'a> {
    guarded: &'a Guarded,
    events: u32,
    starts: Items<u32>,
    scratch: Scratch,
}

impl<'a> Model for Stepper<'a> {
    ghost use Rattle.std.specs.Coded.{codes};
    ghost use Rattle.cif_net_expr.specs.contracts.expressions.NetForm as expressions;
    ghost use Rattle.cif_net_expr.specs.contracts.updates.NetUpdate as updates;
    ghost use Rattle.cif_net.specs.declared.guarded.Guarded.{Guarded};
    ghost use Rattle.cif_sim.specs.Ready.{IsReady};

    ghost Value = { Guarded };

    ghost coded = { Prim.hlevel (codes, expressions.the_row.coded, updates.the_row.coded) };

    ghost view = { λ x. x.guarded.now };

    ghost invariant = { λ x. IsReady x.guarded.now x.events x.starts x.scratch };
}

impl<'a> Stepper<'a> {
    /// Takes all memory that later calls need.
    pub(crate) fn new(alloc: Global, guarded: &'a Guarded) -> Result<Stepper<'a>, Memory>
        ensures { IfOk result (λ x. x ≡ guarded.now) }
    {
        let events = count_events(&guarded.plain.net);
        let starts = starts(alloc, guarded, events)?;
        let scratch = Scratch::new(alloc, guarded)?;
        Ok(Stepper {
            guarded,
            events,
            starts,
            scratch,
        })
    }

    pub(crate) fn guarded(&self) -> &'a Guarded
        ensures { result.now ≡ self.now }
    {
        self.guarded
    }

    /// The number of events.
    pub(crate) fn events(&self) -> u32
        ensures { result ≡ length self.now.plain.net.events }
    {
        self.events
    }

    /// The first choice of an event that makes a step.
    fn choice(&mut self, event: u32, state: &State) -> Option<u32>
        requires event { event < length self.old.plain.net.events }
        requires state { IsState (system_of self.old) (state_tree state.now) }
        ensures net { self.new ≡ self.old }
        ensures first { option_map (after_at self.old (state_tree state.now)) result
            ≡ first_step (system_of self.old) (state_tree state.now) event }
        ensures makes { IfSome result (Makes self.old (state_tree state.now)) }
        ensures of_event { IfSome result (λ k. (choice_at self.old k).0 ≡ event) }
    {
        let at = event as usize;
        let starts = self.starts.as_slice();
        let from = starts[at];
        let to = starts[at + 1];
        first_choice(self.guarded, from, to, state, &mut self.scratch)
    }

    /// Makes the first step of an event, if it has one, and returns the choice that makes it.
    pub(crate) fn fire(&mut self, event: u32, state: &mut State) -> Option<u32>
        requires event { event < length self.old.plain.net.events }
        requires state { IsState (system_of self.old) (state_tree state.old) }
        ensures net { self.new ≡ self.old }
        ensures state { IsState (system_of self.old) (state_tree state.new) }
        ensures fired { OnSome result (first_step (system_of self.old) (state_tree state.old) event ≡ Some (state_tree state.new)) }
        ensures choice { IfSome result (λ k. Fires self.old (state_tree state.old) event k (state_tree state.new)) }
        ensures none { IfNone result (first_step (system_of self.old) (state_tree state.old) event ≡ None) }
        ensures stays { IfNone result (state_tree state.new ≡ state_tree state.old) }
    {
        let choice = self.choice(event, state)?;
        step_by(self.guarded, choice, state, &mut self.scratch);
        Some(choice)
    }

    /// Whether an event has a step.
    #[tactic(auto, unfolding(crate::specs::Tried::has_step))]
    fn has_step(&mut self, event: u32, state: &State) -> bool
        requires event { event < length self.old.plain.net.events }
        requires state { IsState (system_of self.old) (state_tree state.now) }
        ensures net { self.new ≡ self.old }
        ensures step { result ≡ has_step self.old (state_tree state.now) event }
    {
        self.choice(event, state).is_some()
    }

    /// Whether an event has a step. The mark of one without is turned off.
    fn tries(&mut self, event: u32, state: &State, marks: &mut Marks) -> bool
        requires event { event < length self.old.plain.net.events }
        requires state { IsState (system_of self.old) (state_tree state.now) }
        requires idle { AreIdle self.old (state_tree state.now) marks.old }
        ensures net { self.new ≡ self.old }
        ensures step { result ≡ has_step self.old (state_tree state.now) event }
        ensures idle { AreIdle self.old (state_tree state.now) marks.new }
    {
        let has_step = self.has_step(event, state);
        if !has_step {
            marks.sleep(event);
        }
        has_step
    }

    /// Whether an event is of a class and has a step.
    #[tactic(auto, unfolding(crate::specs::Tried::has_step_in))]
    fn tries_in(&mut self, class: Class, event: u32, state: &State, marks: &mut Marks) -> bool
        requires event { event < length self.old.plain.net.events }
        requires state { IsState (system_of self.old) (state_tree state.now) }
        requires idle { AreIdle self.old (state_tree state.now) marks.old }
        ensures net { self.new ≡ self.old }
        ensures step { result ≡ has_step_in self.old (class_of class) (state_tree state.now) event }
        ensures idle { AreIdle self.old (state_tree state.now) marks.new }
    {
        is_of(self.guarded, class, event) && self.tries(event, state, marks)
    }

    /// The lowest-numbered event that has a step. Events whose mark is off are passed over.
    pub(crate) fn first(&mut self, state: &State, marks: &mut Marks) -> Option<u32>
        requires state { IsState (system_of self.old) (state_tree state.now) }
        requires idle { AreIdle self.old (state_tree state.now) marks.old }
        ensures net { self.new ≡ self.old }
        ensures first { result ≡ first_event (system_of self.old) (state_tree state.now) }
        ensures idle { AreIdle self.old (state_tree state.now) marks.new }
    {
        let events = self.events();
        let mut event = marks.next(0);
        while event < events {
            if self.tries(event, state, marks) {
                return Some(event);
            }
            event = marks.next(event + 1);
        }
        None
    }

    /// The lowest-numbered event of a class that has a step. Events whose mark is off are passed over.
    pub(crate) fn first_of(&mut self, class: Class, state: &State, marks: &mut Marks) -> Option<u32>
        requires state { IsState (system_of self.old) (state_tree state.now) }
        requires idle { AreIdle self.old (state_tree state.now) marks.old }
        ensures net { self.new ≡ self.old }
        ensures first { result ≡ first_event_of (system_of self.old) (class_of class) (state_tree state.now) }
        ensures idle { AreIdle self.old (state_tree state.now) marks.new }
    {
        let events = self.events();
        let mut event = marks.next(0);
        while event < events {
            if self.tries_in(class, event, state, marks) {
                return Some(event);
            }
            event = marks.next(event + 1);
        }
        None
    }
}
