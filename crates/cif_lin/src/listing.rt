//! The choices of all events.

ghost use Rattle.std.specs.Prelude.{◌≡◌, ℕ, ◌≤◌, ◌<◌, ◌^◌, not, length, map, IfOk, Err};
ghost use Rattle.cif_system.specs.Choices.{all_choices};
ghost use Rattle.cif_system.specs.Words.{Exceeds};
ghost use Rattle.cif_net_model.specs.Counts.{most_choices};
ghost use Rattle.cif_net_model.specs.Facts.{channel_of};
ghost use Rattle.cif_net_model.specs.Listing.{roles_of, linear_of};
ghost use Rattle.cif_net_model.specs.Meaning.{system_of_net};
ghost use Rattle.cif_net.specs.View.{net_tree, auto_tree, choice_tree, linear_tree, roles_tree, event_roles_tree};
ghost use Rattle.cif_lin.specs.Cells as c;
ghost use Rattle.cif_lin.specs.Limits.{limited, gives};
ghost use Rattle.cif_lin.specs.declared.error.LinErr.TheVariants.{TooManyChoices};

use crate::adding::add_choices;
use crate::error::LinErr;
use crate::parties::{between, synced, with_number};
use cif_base::{Items, Memory};
use cif_net::{Choice, EventRoles, Linear, Net, NetChan, Plain, Roles};
use std::alloc::Global;

/// The choices of all events of the net: for a channel by sender and then by receiver, and then lexicographically by the automata
/// that take part, whose edges stand in text order and to stay is last. `roles` are those of the net.
#[tactic(auto, using(crate::proofs::LinearLaws::few_roles))]
pub fn linearise(alloc: Global, plain: &Plain, roles: &Roles) -> Result<Linear, LinErr>
    requires { roles_tree roles.now ≡ roles_of (net_tree plain.now.net) }
    ensures listed { IfOk result (λ l. linear_tree l ≡ linear_of (net_tree plain.now.net)) }
    ensures few { IfOk result (λ l. all_choices (system_of_net (net_tree plain.now.net)) ≤ most_choices) }
    ensures refused { (count : ℕ) → result ≡ Err (TooManyChoices count) →
        Exceeds most_choices (all_choices (system_of_net (net_tree plain.now.net))) count }
{
    let mut choices = Items::new(alloc);
    if add_events(alloc, &plain.net, roles.events.as_slice(), &mut choices)? {
        Ok(Linear { choices })
    } else {
        Err(LinErr::TooManyChoices { count: 16385 })
    }
}

fn add_events(
    alloc: Global,
    net: &Net,
    roles: &[EventRoles],
    all: &mut Items<Choice>,
) -> Result<bool, Memory>
    requires { length roles.now < 2 ^ 32 }
    ensures { IfOk result (λ fits. gives fits (map choice_tree all.new)
        ≡ limited (map choice_tree all.old) (c.choices_from (net_tree net.now) 0 (map event_roles_tree roles.now))) }
{
    for (event, found) in roles.iter().enumerate() {
        if !add_event(alloc, net, event as u32, found, all)? {
            return Ok(false);
        }
    }
    Ok(true)
}

fn add_event(
    alloc: Global,
    net: &Net,
    event: u32,
    roles: &EventRoles,
    all: &mut Items<Choice>,
) -> Result<bool, Memory>
    ensures { IfOk result (λ fits. gives fits (map choice_tree all.new)
        ≡ limited (map choice_tree all.old) (c.event_choices (net_tree net.now) event (event_roles_tree roles.now))) }
{
    if is_channel(net, event) {
        return add_senders(alloc, net, event, roles, all);
    }
    if roles.syncs.is_empty() && roles.sends.is_empty() && roles.receives.is_empty() {
        return Ok(true);
    }
    let parties = synced(alloc, net, event, roles.syncs.as_slice())?;
    add_choices(alloc, net, event, parties.as_slice(), all)
}

fn is_channel(net: &Net, event: u32) -> bool
    ensures { result ≡ not (c.is_plain (channel_of (net_tree net.now) event)) }
{
    match net.events.get(event as usize) {
        Some(found) => !matches!(&found.chan, NetChan::No),
        None => false,
    }
}

/// Adds the choices of a channel.
fn add_senders(
    alloc: Global,
    net: &Net,
    event: u32,
    roles: &EventRoles,
    all: &mut Items<Choice>,
) -> Result<bool, Memory>
    ensures { IfOk result (λ fits. gives fits (map choice_tree all.new)
        ≡ limited (map choice_tree all.old) (c.sent_all (map auto_tree net.now.autos) event (event_roles_tree roles.now))) }
{
    for sender in roles.sends.as_slice() {
        if !add_receivers(alloc, net, event, roles, *sender, all)? {
            return Ok(false);
        }
    }
    Ok(true)
}

/// Adds the choices in which an automaton sends.
fn add_receivers(
    alloc: Global,
    net: &Net,
    event: u32,
    roles: &EventRoles,
    sender: u32,
    all: &mut Items<Choice>,
) -> Result<bool, Memory>
    ensures { IfOk result (λ fits. gives fits (map choice_tree all.new)
        ≡ limited (map choice_tree all.old) (c.sent_to (map auto_tree net.now.autos) event (event_roles_tree roles.now) sender)) }
{
    for receiver in roles.receives.as_slice() {
        if !add_pair(alloc, net, event, roles, sender, *receiver, all)? {
            return Ok(false);
        }
    }
    Ok(true)
}

/// Adds the choices in which an automaton sends to another one.
fn add_pair(
    alloc: Global,
    net: &Net,
    event: u32,
    roles: &EventRoles,
    sender: u32,
    receiver: u32,
    all: &mut Items<Choice>,
) -> Result<bool, Memory>
    ensures { IfOk result (λ fits. gives fits (map choice_tree all.new)
        ≡ limited (map choice_tree all.old) (c.between (map auto_tree net.now.autos) event (event_roles_tree roles.now) sender receiver)) }
{
    if sender == receiver {
        return Ok(true);
    }
    let others = with_number(alloc, roles.syncs.as_slice(), receiver)?;
    let numbers = with_number(alloc, others.as_slice(), sender)?;
    let parties = between(alloc, net, event, sender, receiver, numbers.as_slice())?;
    add_choices(alloc, net, event, parties.as_slice(), all)
}
