//! The paths of a net, and the lines of a script that name them.

ghost use Rattle.std.specs.Prelude.{◌≡◌, ◌<◌, ◌^◌, ◌∷◌, length, map, option_map, option_and_then, IfOk};
ghost use Rattle.cif_net.specs.View.{net_tree};
ghost use Rattle.cif_net.specs.declared.data.Input.{Input};
ghost use Rattle.cif_net.specs.declared.events.Event.{Event};
ghost use Rattle.cif_sim_model.specs.Names.{ValueNames};
ghost use Rattle.cif_sim_model.specs.Script.{fires, number_of, parts_of, read_line, said, set_of};
ghost use Rattle.cif_sim_names.specs.Nets.{names_of_net};
ghost use Rattle.cif_script.specs.Numbers.{Finds, first_number};
ghost use Rattle.cif_script.specs.Views.{action_of};

use crate::action::Action;
use crate::cutting::first_part;
use crate::numbers::Numbers;
use crate::values::value_of;
use cif_base::Memory;
use cif_net::{Event, Input, Net};
use std::alloc::Global;
use std::marker::Model;

/// The numbers of a net's events and inputs by path, the lowest where several have one path. Contracts see the names of
/// the net.
#[derive(Drop)]
pub struct Paths<'a> {
    net: &'a Net,
    events: Numbers<'a>,
    inputs: Numbers<'a>,
}

impl<'a> Model for Paths<'a> {
    ghost use Rattle.cif_sim_model.specs.Names.{Names};
    ghost use Rattle.cif_net.specs.View.{net_tree};
    ghost use Rattle.cif_sim_names.specs.Nets.{names_of_net};
    ghost use Rattle.cif_script.specs.Numbers.{FindsNames};

    ghost Value = { Names };

    ghost view = { λ p. names_of_net (net_tree p.net.now) };

    ghost invariant = { λ p. FindsNames (names_of_net (net_tree p.net.now)) p.events p.inputs };
}

impl<'a> Paths<'a> {
    /// The paths of a net.
    pub fn new(alloc: Global, net: &'a Net) -> Result<Paths<'a>, Memory>
        ensures { IfOk result (λ p. p ≡ names_of_net (net_tree net.now)) }
    {
        let events = event_numbers(alloc, net.events.as_slice())?;
        let inputs = input_numbers(alloc, net.inputs.as_slice())?;
        Ok(Paths {
            net,
            events,
            inputs,
        })
    }

    /// The number of the first event with this path.
    pub fn event(&self, path: &[u8]) -> Option<u32>
        ensures { result ≡ first_number self.now.events path.now }
    {
        self.events.number(path)
    }

    /// Reads a line of a script, without its line end; `None` if it has none of the three forms or names nothing of that sort.
    /// It takes no memory.
    pub fn read(&self, line: &[u8]) -> Option<Action>
        ensures { option_map action_of result ≡ read_line self.now line.now }
    {
        let (word, rest) = first_part(line);
        match rest {
            Some(rest) => self.read_word(word, rest),
            None if word.is_empty() => Some(Action::Idle),
            None => None,
        }
    }

    /// Reads a line from its first part and the text behind it.
    fn read_word(&self, word: &[u8], rest: &[u8]) -> Option<Action>
        ensures { option_map action_of result ≡ said self.now (word.now ∷ parts_of rest.now) }
    {
        let (name, rest) = first_part(rest);
        if let Some(rest) = rest {
            return self.read_value(word, name, rest);
        }
        if word == b"fire".as_slice() {
            self.fire(name)
        } else {
            None
        }
    }

    /// Reads a line from its first two parts and the text behind them.
    fn read_value(&self, word: &[u8], name: &[u8], rest: &[u8]) -> Option<Action>
        ensures { option_map action_of result ≡ said self.now (word.now ∷ name.now ∷ parts_of rest.now) }
    {
        let (value, rest) = first_part(rest);
        if rest.is_none() && word == b"set".as_slice() {
            self.set(name, value)
        } else {
            None
        }
    }

    /// Fires the event with this path.
    fn fire(&self, name: &[u8]) -> Option<Action>
        ensures { option_map action_of result ≡ option_map (λ e. fires e.0) (number_of (λ p. p) name.now self.now.events) }
    {
        let event = self.event(name)?;
        Some(Action::Fire { event })
    }

    /// Sets the input with this path to what a word stands for.
    fn set(&self, name: &[u8], value: &[u8]) -> Option<Action>
        ensures { option_map action_of result ≡ option_and_then (set_of value.now) (number_of (λ (v : ValueNames). v.path) name.now self.now.inputs) }
    {
        let input = self.inputs.number(name)?;
        let stored = &self.net.inputs.as_slice()[input as usize];
        let value = value_of(stored.ty, stored.literals.as_slice(), value)?;
        Some(Action::Set { input, value })
    }
}

/// The numbers of events by their paths.
fn event_numbers<'a>(alloc: Global, events: &'a [Event]) -> Result<Numbers<'a>, Memory>
    requires { length events.now < 2 ^ 32 }
    ensures { IfOk result (Finds (map (λ (e : Event). e.path) events.now)) }
{
    let mut all = Numbers::new(alloc);
    for (number, event) in events.iter().enumerate() {
        all.add(&event.path, number as u32)?;
    }
    Ok(all)
}

/// The numbers of inputs by their paths.
fn input_numbers<'a>(alloc: Global, inputs: &'a [Input]) -> Result<Numbers<'a>, Memory>
    requires { length inputs.now < 2 ^ 32 }
    ensures { IfOk result (Finds (map (λ (i : Input). i.path) inputs.now)) }
{
    let mut all = Numbers::new(alloc);
    for (number, input) in inputs.iter().enumerate() {
        all.add(&input.path, number as u32)?;
    }
    Ok(all)
}
