//! The reasons why an event has no step.

ghost use Rattle.std.specs.Prelude.{◌≡◌, ◌++◌, map, OnOk};
ghost use Rattle.cif_why_model.specs.Reasons.{reason_if};
ghost use Rattle.cif_why.specs.View.{reason_tree};

use cif_base::{Items, Memory};

/// Why an event has no step in a state. Automata, exclusions, invariants and the edges of an automaton are numbers from 0.
/// `place` numbers the values of an edge from 0: the one that it sends, if it sends one, and then the right sides of its
/// updates in text order.
#[derive(Clone, Copy, Debug, PartialEq, Eq)]
pub enum Reason {
    /// No automaton has the event in its alphabet, sends it or receives it.
    NoRole,
    /// The automaton synchronises on the event, does not monitor it, and has no enabled edge for it.
    Blocks { auto: u32 },
    /// The event is a channel, and no edge that sends is enabled.
    NoSender,
    /// The event is a channel, and no edge that receives is enabled.
    NoReceiver,
    /// The exclusion forbids the event.
    Excluded { exclusion: u32 },
    /// A value of an edge is outside the range of its channel or variable, in a choice whose edges are enabled.
    Leaves { auto: u32, edge: u32, place: u32 },
    /// The state invariant is false after a choice whose edges are enabled and whose values are in range.
    Breaks { invariant: u32 },
}

/// Adds a reason where it holds.
pub(crate) fn add_if(all: &mut Items<Reason>, holds: bool, reason: Reason) -> Result<(), Memory>
    ensures { OnOk result (map reason_tree all.new ≡ map reason_tree all.old ++ reason_if holds (reason_tree reason)) }
{
    if holds {
        all.push(reason)?;
    }
    Ok(())
}
