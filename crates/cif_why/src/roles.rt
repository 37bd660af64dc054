//! The reasons that come from who takes part in an event (CIF 3 language reference, "Synchronization", "Channels").

ghost use Rattle.std.specs.Prelude.{◌≡◌, ◌++◌, not, map, slice_get, option_map, OnOk};
ghost use Rattle.cif_system.specs.System.{IsState, receiving, sending};
ghost use Rattle.std.specs.List.{list_any};
ghost use Rattle.cif_system.specs.Step.{is_channel_of, numbered};
ghost use Rattle.cif_net_model.specs.Meaning.{event_in, system_of_net};
ghost use Rattle.cif_net.specs.View.{event_tree, net_tree, role_of, state_tree};
ghost use Rattle.cif_net.specs.declared.events.Event.{Event};
ghost use Rattle.cif_why_model.specs.Reasons.{blocks, can, each_of, has_role, is_blocking, lacks, no_receiver, no_role, no_sender, reason_if};
ghost use Rattle.cif_why.specs.Channels.{is_chan};
ghost use Rattle.cif_why.specs.View.{reason_tree};

use crate::blocking::add_blocking;
use crate::parties::{some_can, some_party};
use crate::reason::{Reason, add_if};
use cif_base::{Items, Memory};
use cif_net::{Event, NetChan, NetRole, Plain, State};

/// Adds that no automaton has the event, the automata that block it, and that none sends or receives.
pub(crate) fn add_roles(
    plain: &Plain,
    state: &State,
    event: u32,
    all: &mut Items<Reason>,
) -> Result<(), Memory>
    requires { IsState (system_of_net (net_tree plain.now.net)) (state_tree state.now) }
    ensures { OnOk result (map reason_tree all.new ≡ map reason_tree all.old
        ++ reason_if (not (has_role (system_of_net (net_tree plain.now.net)) event)) no_role
        ++ each_of blocks (is_blocking event (state_tree state.now)) (system_of_net (net_tree plain.now.net)).automata
        ++ reason_if (lacks (system_of_net (net_tree plain.now.net)) (state_tree state.now) sending event) no_sender
        ++ reason_if (lacks (system_of_net (net_tree plain.now.net)) (state_tree state.now) receiving event) no_receiver) }
{
    add_if(all, !has_role(plain, event), Reason::NoRole)?;
    add_blocked(plain, state, event, all)?;
    let no_sender = lacks(plain, state, event, NetRole::Send);
    add_if(all, no_sender, Reason::NoSender)?;
    let no_receiver = lacks(plain, state, event, NetRole::Recv);
    add_if(all, no_receiver, Reason::NoReceiver)
}

/// Whether some automaton has an event in a role.
fn has_role(plain: &Plain, event: u32) -> bool
    ensures { result ≡ has_role (system_of_net (net_tree plain.now.net)) event }
{
    some_party(plain.net.autos.as_slice(), event)
}

/// Adds the automata that block an event.
fn add_blocked(
    plain: &Plain,
    state: &State,
    event: u32,
    all: &mut Items<Reason>,
) -> Result<(), Memory>
    requires { IsState (system_of_net (net_tree plain.now.net)) (state_tree state.now) }
    ensures { OnOk result (map reason_tree all.new ≡ map reason_tree all.old
        ++ each_of blocks (is_blocking event (state_tree state.now)) (system_of_net (net_tree plain.now.net)).automata) }
{
    add_blocking(plain.net.autos.as_slice(), state, event, all)
}

/// Whether an event is a channel that some automaton has, and none can take part in a role.
fn lacks(plain: &Plain, state: &State, event: u32, role: NetRole) -> bool
    requires { IsState (system_of_net (net_tree plain.now.net)) (state_tree state.now) }
    ensures { result ≡ lacks (system_of_net (net_tree plain.now.net)) (state_tree state.now) (role_of role) event }
{
    let channel = is_channel(plain.net.events.as_slice(), event);
    let has_role = has_role(plain, event);
    let can = can_take(plain, state, event, role);
    channel && has_role && !can
}

/// Whether some automaton can take an edge for an event in a role.
fn can_take(plain: &Plain, state: &State, event: u32, role: NetRole) -> bool
    requires { IsState (system_of_net (net_tree plain.now.net)) (state_tree state.now) }
    ensures { result ≡ list_any (can (role_of role) event (state_tree state.now)) (numbered (system_of_net (net_tree plain.now.net))) }
{
    some_can(plain.net.autos.as_slice(), role, event, state)
}

fn is_channel(events: &[Event], event: u32) -> bool
    ensures { result ≡ is_channel_of (slice_get (map event_in (map event_tree events.now)) event) }
{
    is_chan(chan_at(events, event))
}

/// The channel of the event with this number.
pub(crate) fn chan_at(events: &[Event], event: u32) -> Option<NetChan>
    ensures { result ≡ option_map (λ (e : Event). e.chan) (slice_get events.now event) }
{
    match events.get(event as usize) {
        Some(event) => Some(event.chan),
        None => None,
    }
}

fn is_chan(chan: Option<NetChan>) -> bool
    ensures { result ≡ is_chan chan }
{
    match chan {
        Some(NetChan::Void | NetChan::Of(_)) => true,
        Some(NetChan::No) | None => false,
    }
}
