//! A simulation of a guarded net.

ghost use Rattle.std.specs.Prelude.{◌≡◌, ◌<◌, true, false, IfErr, IfOk, None, OnErr, OnOk, Some, length};
ghost use Rattle.cif_system.specs.System.{IsState, initial};
ghost use Rattle.cif_system.specs.Choices.{first_step};
ghost use Rattle.cif_net.specs.Parts.{class_of};
ghost use Rattle.cif_net.specs.View.{state_tree};
ghost use Rattle.cif_eval.specs.Choices.{system_of};
ghost use Rattle.cif_sim_model.specs.Runs.{first_event, first_event_of, input_fits, with_input};
ghost use Rattle.cif_sim.specs.Tried.{Fires};

use crate::inputs::{put, takes};
use crate::marks::Marks;
use crate::readers::Readers;
use crate::stepper::Stepper;
use crate::waking::{wake_after, wake_at};
use cif_base::Memory;
use cif_net::{Class, Guarded, State};
use std::alloc::Global;
use std::marker::Model;

/// Why an input is not set: the value lies outside its range.
#[derive(Clone, Copy, Debug, PartialEq, Eq)]
pub enum SetErr {
    OutOfRange { value: i64 },
}

/// The event has no step.
#[derive(Clone, Copy, Debug, PartialEq, Eq)]
pub struct NotEnabled;

/// A guarded net and one of its states, which inputs and events change. Events and inputs are numbers from 0, in the order of
/// the net. Only `new` takes memory.
#[derive(Drop)]
pub struct Sim<'a> {
    stepper: Stepper<'a>,
    state: State,
    readers: Readers,
    marks: Marks,
}

impl<'a> Model for Sim<'a> {
    ghost use Rattle.std.specs.Coded.{codes};
    ghost use Rattle.cif_net_expr.specs.contracts.expressions.NetForm as expressions;
    ghost use Rattle.cif_net_expr.specs.contracts.updates.NetUpdate as updates;
    ghost use Rattle.cif_net.specs.View.{state_tree};
    ghost use Rattle.cif_sim.specs.Simulated.{Simulated};
    ghost use Rattle.cif_sim.specs.Watched.{IsWatched};

    ghost Value = { Simulated };

    ghost coded = { Prim.hlevel (codes, expressions.the_row.coded, updates.the_row.coded) };

    ghost view = { λ x. record { guarded = x.stepper; state = state_tree x.state } };

    ghost invariant = { λ x. IsWatched x.stepper (state_tree x.state) x.readers x.marks };
}

impl<'a> Sim<'a> {
    /// The net in its initial state.
    pub fn new(alloc: Global, guarded: &'a Guarded) -> Result<Sim<'a>, Memory>
        ensures net { IfOk result (λ sim. sim.guarded ≡ guarded.now) }
        ensures start { IfOk result (λ sim. sim.state ≡ initial (system_of guarded.now)) }
    {
        let stepper = Stepper::new(alloc, guarded)?;
        let events = stepper.events();
        let state = State::initial(alloc, &guarded.plain.net)?;
        let readers = Readers::new(alloc, guarded, events)?;
        let marks = Marks::new(alloc, events)?;
        Ok(Sim {
            stepper,
            state,
            readers,
            marks,
        })
    }

    /// The state.
    pub fn state(&self) -> &State
        ensures is { state_tree result.now ≡ self.now.state }
        ensures valid { IsState (system_of self.now.guarded) self.now.state }
    {
        &self.state
    }

    /// Sets an input to a value in its range.
    pub fn set(&mut self, input: u32, value: i64) -> Result<(), SetErr>
        requires { input < length (system_of self.old.guarded).inputs }
        ensures net { self.new.guarded ≡ self.old.guarded }
        ensures fits { OnOk result (input_fits (system_of self.old.guarded) input value ≡ true) }
        ensures is_set { OnOk result (self.new.state ≡ with_input self.old.state input value) }
        ensures refused { IfErr result (λ e. (e ≡ SetErr.OutOfRange value) × (input_fits (system_of self.old.guarded) input value ≡ false)) }
        ensures kept { OnErr result (self.new ≡ self.old) }
    {
        let guarded = self.stepper.guarded();
        if !takes(guarded, input, value) {
            return Err(SetErr::OutOfRange { value });
        }
        put(guarded, input, value, &mut self.state);
        wake_at(&self.readers.inputs, input, &mut self.marks);
        Ok(())
    }

    /// Makes the first step of an event: that of the first of its choices that makes one, whose number it returns.
    pub fn fire(&mut self, event: u32) -> Result<u32, NotEnabled>
        requires { event < length (system_of self.old.guarded).events }
        ensures net { self.new.guarded ≡ self.old.guarded }
        ensures fired { OnOk result (first_step (system_of self.old.guarded) self.old.state event ≡ Some self.new.state) }
        ensures choice { IfOk result (λ k. Fires self.old.guarded self.old.state event k self.new.state) }
        ensures none { OnErr result (first_step (system_of self.old.guarded) self.old.state event ≡ None) }
        ensures kept { OnErr result (self.new ≡ self.old) }
    {
        let Some(choice) = self.stepper.fire(event, &mut self.state) else {
            return Err(NotEnabled);
        };
        let guarded = self.stepper.guarded();
        wake_after(guarded, choice, &self.readers, &mut self.marks);
        Ok(choice)
    }

    /// The lowest-numbered event that has a step.
    pub fn first(&mut self) -> Option<u32>
        ensures first { result ≡ first_event (system_of self.old.guarded) self.old.state }
        ensures kept { self.new ≡ self.old }
    {
        self.stepper.first(&self.state, &mut self.marks)
    }

    /// The lowest-numbered event of a class that has a step.
    pub fn first_of(&mut self, class: Class) -> Option<u32>
        ensures first { result ≡ first_event_of (system_of self.old.guarded) (class_of class) self.old.state }
        ensures kept { self.new ≡ self.old }
    {
        self.stepper.first_of(class, &self.state, &mut self.marks)
    }
}
