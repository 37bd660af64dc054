//! The lines of a run, written one at a time.

ghost use Rattle.std.specs.Prelude.{◌≡◌, ◌<◌, ◌≤◌, suc, [], length, IfOk, OnOk, OnErr};
ghost use Rattle.cif_eval.specs.Choices.{system_of};
ghost use Rattle.cif_io.specs.Faults.{Rose};
ghost use Rattle.cif_io.specs.Written.{grown};
ghost use Rattle.cif_net.specs.View.{state_tree};
ghost use Rattle.cif_system.specs.System.{initial};
ghost use Rattle.cif_sim_model.specs.Simulation.{moment_text, steps_after};
ghost use Rattle.cif_sim_model.specs.Texts.{start_line, step_line};
ghost use Rattle.cif_sim_run.specs.Halts.{GrewByPart};
ghost use Rattle.cif_sim_run.specs.Left.{IsUpToDate, Shows, names_in};
ghost use Rattle.cif_sim_run.specs.Made.{ChangedBy, IsWithin, action_made};

use crate::copying::copy_shown;
use crate::made::{Fired, Made};
use crate::touches::Touches;
use cif_base::Memory;
use cif_io::{Sink, SinkErr, put_all};
use cif_net::{Guarded, State};
use cif_script::{put_set, put_start, put_step};
use std::alloc::Global;

/// Writes the lines of a run: the number of steps so far, and the places and values after the last of them. The inputs in `before`
/// stay as they are. A step costs time by what its choice may change.
#[derive(Drop)]
pub(crate) struct LineWriter<'a> {
    touches: Touches<'a>,
    before: State,
    steps: u32,
    line: Vec<u8>,
}

impl<'a> LineWriter<'a> {
    pub(crate) fn new(alloc: Global, guarded: &'a Guarded) -> Result<LineWriter<'a>, Memory>
        ensures net { IfOk result (λ w. w.touches ≡ guarded.now) }
        ensures start { IfOk result (λ w. state_tree w.before ≡ initial (system_of guarded.now)) }
        ensures steps { IfOk result (λ w. w.steps ≡ 0) }
    {
        let touches = Touches::new(alloc, guarded)?;
        let before = State::initial(alloc, &guarded.plain.net)?;
        Ok(LineWriter {
            touches,
            before,
            steps: 0,
            line: Vec::new(alloc),
        })
    }

    /// The number of steps so far.
    pub(crate) fn steps(&self) -> u32
        ensures { result ≡ self.now.steps }
    {
        self.steps
    }

    /// Writes the start line.
    pub(crate) fn write_start<O: Sink>(&mut self, out: &mut O) -> Result<(), SinkErr>
        ensures kept { self.new ≡ record self.old { line = self.new.line } }
        ensures all { OnOk result (O.written out.new ≡ grown (O.written out.old)
            (start_line (names_in self.old.touches) (state_tree self.old.before))) }
        ensures part { OnErr result (GrewByPart (start_line (names_in self.old.touches) (state_tree self.old.before))
            (O.written out.old) (O.written out.new)) }
        ensures failed { result ≡ Err SinkErr.Failed → Rose (O.faults out.old) (O.faults out.new) }
        ensures faults_stay_or_rise { O.faults out.old ≤ O.faults out.new }
    {
        self.line.clear();
        put_start(&mut self.line, self.touches.net(), &self.before).map_err(|_| SinkErr::Memory)?;
        put_all(out, self.line.as_slice())
    }

    /// Writes the line of an action, if it has one.
    pub(crate) fn write_action<O: Sink>(
        &mut self,
        made: Made,
        after: &State,
        out: &mut O,
    ) -> Result<(), SinkErr>
        requires places { length self.old.before.locs ≡ length after.now.locs }
        requires values { length self.old.before.vals ≡ length after.now.vals }
        requires within { IsWithin self.old.touches made (state_tree self.old.before) (state_tree after.now) }
        requires counted { self.old.steps < 4294967295 }
        ensures net { self.new.touches ≡ self.old.touches }
        ensures steps { OnOk result (self.new.steps ≡ steps_after self.old.steps (action_made made)) }
        ensures shown { OnOk result (IsUpToDate (action_made made) (state_tree self.old.before) (state_tree self.new.before) (state_tree after.now)) }
        ensures all { OnOk result (O.written out.new ≡ grown (O.written out.old)
            (moment_text (names_in self.old.touches) self.old.steps
            (record { action = action_made made; before = state_tree self.old.before; after = state_tree after.now }))) }
        ensures part { OnErr result (GrewByPart (moment_text (names_in self.old.touches) self.old.steps
            (record { action = action_made made; before = state_tree self.old.before; after = state_tree after.now }))
            (O.written out.old) (O.written out.new)) }
        ensures failed { result ≡ Err SinkErr.Failed → Rose (O.faults out.old) (O.faults out.new) }
        ensures faults_stay_or_rise { O.faults out.old ≤ O.faults out.new }
    {
        self.put_action(made, after).map_err(|_| SinkErr::Memory)?;
        put_all(out, self.line.as_slice())
    }

    /// Puts the line of an action in the place of the last one.
    fn put_action(&mut self, made: Made, after: &State) -> Result<(), Memory>
        requires places { length self.old.before.locs ≡ length after.now.locs }
        requires values { length self.old.before.vals ≡ length after.now.vals }
        requires within { IsWithin self.old.touches made (state_tree self.old.before) (state_tree after.now) }
        requires counted { self.old.steps < 4294967295 }
        ensures net { self.new.touches ≡ self.old.touches }
        ensures steps { OnOk result (self.new.steps ≡ steps_after self.old.steps (action_made made)) }
        ensures shown { OnOk result (IsUpToDate (action_made made) (state_tree self.old.before) (state_tree self.new.before) (state_tree after.now)) }
        ensures line { OnOk result (self.new.line.items ≡ moment_text (names_in self.old.touches) self.old.steps
            (record { action = action_made made; before = state_tree self.old.before; after = state_tree after.now })) }
    {
        self.line.clear();
        match made {
            Made::Idle => Ok(()),
            Made::Set { input, value } => put_set(&mut self.line, self.touches.net(), input, value),
            Made::Fire(fired) => self.put_fire(fired, after),
        }
    }

    /// Puts the line of a step behind the empty line.
    fn put_fire(&mut self, fired: Fired, after: &State) -> Result<(), Memory>
        requires empty { self.old.line.items ≡ [] }
        requires places { length self.old.before.locs ≡ length after.now.locs }
        requires values { length self.old.before.vals ≡ length after.now.vals }
        requires within { ChangedBy self.old.touches fired.choice (state_tree self.old.before) (state_tree after.now) }
        requires counted { self.old.steps < 4294967295 }
        ensures net { self.new.touches ≡ self.old.touches }
        ensures steps { OnOk result (self.new.steps ≡ suc self.old.steps) }
        ensures shown { OnOk result (Shows (state_tree self.new.before) (state_tree after.now)) }
        ensures line { OnOk result (self.new.line.items ≡ step_line (names_in self.old.touches) (suc self.old.steps) fired.event
            (state_tree self.old.before) (state_tree after.now)) }
    {
        self.steps += 1;
        let touched = self.touches.of(fired.choice);
        put_step(
            &mut self.line,
            self.touches.net(),
            self.steps,
            fired.event,
            touched,
            &self.before,
            after,
        )?;
        copy_shown(touched, after, &mut self.before);
        Ok(())
    }
}
