//! The automata that block an event (CIF 3 language reference, "Synchronization", "Monitoring").

ghost use Rattle.std.specs.Prelude.{◌≡◌, ◌++◌, ◌<◌, ◌^◌, pos, length, map, OnOk};
ghost use Rattle.cif_why_model.specs.Reasons.{blocks};
ghost use Rattle.cif_net.specs.View.{auto_tree, edge_tree};
ghost use Rattle.cif_value.specs.Settings.{told};
ghost use Rattle.cif_why.specs.Lists.{each_from};
ghost use Rattle.cif_why.specs.Parties.{AreSafeAutos, AreSafeGuards, is_blocked};
ghost use Rattle.cif_why.specs.View.{reason_tree};

use crate::parties::{can, has};
use crate::reason::{Reason, add_if};
use cif_base::{Items, Memory};
use cif_net::{Auto, NetRole, State};

/// Adds the automata that block an event.
pub(crate) fn add_blocking(
    autos: &[Auto],
    state: &State,
    event: u32,
    all: &mut Items<Reason>,
) -> Result<(), Memory>
    requires few { length autos.now < 2 ^ 32 }
    requires safe { AreSafeAutos (told state.now (pos 0)) (map auto_tree autos.now) }
    ensures { OnOk result (map reason_tree all.new ≡ map reason_tree all.old ++ each_from blocks (is_blocked (told state.now (pos 0)) event) 0 (map auto_tree autos.now)) }
{
    for (number, auto) in autos.iter().enumerate() {
        let auto_number = number as u32;
        let blocks = is_blocked(auto, auto_number, state, event);
        add_if(all, blocks, Reason::Blocks { auto: auto_number })?;
    }
    Ok(())
}

/// Whether an automaton synchronises on an event, does not monitor it and has no enabled edge for it.
fn is_blocked(auto: &Auto, number: u32, state: &State, event: u32) -> bool
    requires { AreSafeGuards (told state.now (pos 0)) (map edge_tree auto.now.edges) }
    ensures { result ≡ is_blocked (told state.now (pos 0)) event number (auto_tree auto.now) }
{
    has(auto.alphabet.as_slice(), event)
        && !has(auto.monitors.as_slice(), event)
        && !can(auto, number, NetRole::Sync, event, state)
}
