//! The reasons over a net, up to the status that they lead to.

ghost use Rattle.std.specs.Prelude.{◌≡◌, ◌<◌, ◌≤◌, ◌^◌, ℕ, List, length, map, IfErr, IfOk, IfSome};
ghost use Rattle.cif_eval.specs.Choices.{system_of};
ghost use Rattle.cif_net.specs.View.{net_tree};
ghost use Rattle.cif_net.specs.declared.events.Event.{Event};
ghost use Rattle.cif_script.specs.Numbers.{first_number};
ghost use Rattle.cif_run.specs.Works.{Comes, Reading, reading, writing};
ghost use Rattle.cif_sim_run.specs.Halts.{HaltsSilently};
ghost use Rattle.cif_sim_run.specs.Left.{names_in};
ghost use Rattle.cif_sim_model.specs.Simulation.{Runs, StopsAt};
ghost use Rattle.cif_sim_names.specs.Nets.{told_of_net};
ghost use Rattle.cif_simulate.specs.Scripts.{CameOver};
ghost use Rattle.cif_why_command.specs.Explains.{event_of, explained, reasons_work};

use cif_io::{Files, Sink};
use cif_net::{Event, Guarded};
use cif_run::{Ended, put_text};
use cif_sim_run::{Halt, follow_script};
use cif_simulate::{read_script, status_of};
use cif_why::reasons;
use cif_why_lines::put_reasons;
use std::alloc::Global;

/// The number of the first event with this path.
fn number_of_path(events: &[Event], path: &[u8]) -> Option<u32>
    requires { length events.now < 2 ^ 32 }
    ensures first { result ≡ first_number (map (λ (e : Event). e.path) events.now) path.now }
    ensures inside { IfSome result (λ e. e < length events.now) }
{
    for (number, event) in events.iter().enumerate() {
        if event.path.as_slice() == path {
            return Some(number as u32);
        }
    }
    None
}

/// The number of the event with this path.
pub(crate) fn event_number(net: &Guarded, path: &str) -> Option<u32>
    ensures is { result ≡ event_of (names_in net.now) path.now }
    ensures inside { IfSome result (λ e. e < length net.now.plain.net.events) }
{
    number_of_path(net.plain.net.events.as_slice(), path.as_bytes())
}

/// The lines of the reasons why an event has no step in the state that a script reaches, or why the script stops.
fn reasons_text(alloc: Global, net: &Guarded, script: &[u8], event: u32) -> Result<Vec<u8>, Halt>
    requires short { length script.now ≤ 4194304 }
    requires event { event < length net.now.plain.net.events }
    ensures ran { IfOk result (λ text. Runs (names_in net.now) (system_of net.now) script.now
        × (text.items ≡ explained (names_in net.now) (system_of net.now) (told_of_net (net_tree net.now.plain.net)) script.now event)) }
    ensures halted { IfErr result (HaltsSilently (StopsAt (names_in net.now) (system_of net.now) script.now)) }
{
    let sim = follow_script(alloc, net, script)?;
    let all = reasons(alloc, net, sim.state(), event)?;
    let mut text = Vec::new(alloc);
    put_reasons(&mut text, &net.plain.net, all.as_slice())?;
    Ok(text)
}

/// Writes the reasons why an event has no step in the state that a script reaches.
fn write_reasons<O: Sink>(
    alloc: Global,
    net: &Guarded,
    script: &[u8],
    event: u32,
    out: &mut O,
) -> Ended
    requires short { length script.now ≤ 4194304 }
    requires event { event < length net.now.plain.net.events }
    ensures came { (c : Reading) → Comes (reasons_work (names_in net.now) (system_of net.now) (told_of_net (net_tree net.now.plain.net)) event script.now) c
        (writing (O.written out.old) (O.written out.new) (O.faults out.old) (O.faults out.new)) result }
    ensures out_faults_stay_or_rise { O.faults out.old ≤ O.faults out.new }
{
    match reasons_text(alloc, net, script, event) {
        Ok(text) => put_text(alloc, text, out),
        Err(halt) => Ended::plain(alloc, status_of(halt)),
    }
}

/// Reads a script, and writes the reasons why an event has no step in the state that it reaches.
pub(crate) fn explain_by_script<F: Files, O: Sink>(
    alloc: Global,
    net: &Guarded,
    script: &str,
    event: u32,
    files: &mut F,
    out: &mut O,
) -> Ended
    requires { event < length net.now.plain.net.events }
    ensures came { CameOver (reasons_work (names_in net.now) (system_of net.now) (told_of_net (net_tree net.now.plain.net)) event) script.now
        (reading (F.content files.old) (F.faults files.old) (F.faults files.new) (F.most files.new))
        (writing (O.written out.old) (O.written out.new) (O.faults out.old) (O.faults out.new)) result }
    ensures kept { (n : List ℕ) → F.content files.new n ≡ F.content files.old n }
    ensures faults_stay_or_rise { (n : List ℕ) → F.faults files.old n ≤ F.faults files.new n }
    ensures most_stays_or_rises { (n : List ℕ) → F.most files.old n ≤ F.most files.new n }
    ensures out_faults_stay_or_rise { O.faults out.old ≤ O.faults out.new }
{
    match read_script(alloc, script, files) {
        Ok(bytes) => write_reasons(alloc, net, bytes.as_slice(), event, out),
        Err(ended) => ended,
    }
}
