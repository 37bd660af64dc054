//! The events that read a variable, an input or the place of an automaton.

ghost use Rattle.std.specs.Prelude.{◌≡◌, ◌<◌, ℕ, Some, true, nat_eq, length, map, slice_get, IfOk, OnOk};
ghost use Rattle.std.specs.List.{AllByRecursion, list_any};
ghost use Rattle.cif_net.specs.View.{choice_tree, invariant_tree};
ghost use Rattle.cif_net.specs.declared.listing.Choice.{Choice};
ghost use Rattle.cif_sim.specs.Names.{choice_reads, name_read};
ghost use Rattle.cif_sim.specs.Readers.{AreReadBy, AreReaders, IsReadAt, Keeps, KeepsLists, is_listed, is_read, list_at, predicate_names};

use crate::names::{Name, add_names, names_of};
use cif_base::{Items, Memory};
use cif_net::{Choice, Guarded, Invariant};
use std::alloc::Global;

/// For each place, variable and input, by number, the events that read it. The number behind the last event is for all events.
#[derive(Drop)]
pub(crate) struct Readers {
    pub(crate) places: Items<Items<u32>>,
    pub(crate) vars: Items<Items<u32>>,
    pub(crate) inputs: Items<Items<u32>>,
}

impl Readers {
    /// The readers of all that choices and state invariants name. The latter are read by all events.
    pub(crate) fn new(alloc: Global, guarded: &Guarded, events: u32) -> Result<Readers, Memory>
        requires { events ≡ length guarded.now.plain.net.events }
        ensures { IfOk result (AreReaders guarded.now) }
    {
        let mut readers = Readers {
            places: Items::new(alloc),
            vars: Items::new(alloc),
            inputs: Items::new(alloc),
        };
        add_choices(alloc, guarded.choices.as_slice(), &mut readers)?;
        let invariants = guarded.plain.net.invariants.as_slice();
        add_invariants(alloc, invariants, events, &mut readers)?;
        Ok(readers)
    }

    /// Adds an event that reads this.
    fn add(&mut self, alloc: Global, name: Name, event: u32) -> Result<(), Memory>
        ensures added { OnOk result (is_read self.new (name_read name) event ≡ true) }
        ensures kept { OnOk result (Keeps self.old self.new) }
    {
        match name {
            Name::Var(k) => add_at(alloc, &mut self.vars, k, event),
            Name::Input(k) => add_at(alloc, &mut self.inputs, k, event),
            Name::Place(k) => add_at(alloc, &mut self.places, k, event),
            Name::Alg(_) | Name::Received => Ok(()),
        }
    }
}

/// Adds an event, where it is not the last one.
fn add_event(list: &mut Items<u32>, event: u32) -> Result<(), Memory>
    ensures added { OnOk result (list_any (nat_eq event) list.new ≡ true) }
    ensures kept { OnOk result ((e : ℕ) → list_any (nat_eq e) list.old ≡ true → list_any (nat_eq e) list.new ≡ true) }
{
    if let Some(last) = list.last() {
        if *last == event {
            return Ok(());
        }
    }
    list.push(event)
}

/// Adds empty lists, so that there is one with this number.
fn reach(alloc: Global, lists: &mut Items<Items<u32>>, at: u32) -> Result<(), Memory>
    ensures long { OnOk result (at < length lists.new) }
    ensures same { OnOk result ((k : ℕ) → list_at lists.new k ≡ list_at lists.old k) }
{
    'reach: while lists.len() <= at as usize {
        lists.push(Items::new(alloc))?;
    }
    Ok(())
}

/// Adds an event to the list with this number.
fn add_at(alloc: Global, lists: &mut Items<Items<u32>>, at: u32, event: u32) -> Result<(), Memory>
    ensures added { OnOk result (is_listed lists.new at event ≡ true) }
    ensures kept { OnOk result (KeepsLists lists.old lists.new) }
{
    reach(alloc, lists, at)?;
    let mut list = lists.replace(at as usize, Items::new(alloc));
    add_event(&mut list, event)?;
    lists.set(at as usize, list);
    Ok(())
}

/// Adds an event that reads all this.
fn add_names_of(
    alloc: Global,
    names: &[Name],
    event: u32,
    readers: &mut Readers,
) -> Result<(), Memory>
    ensures added { OnOk result (AllByRecursion (IsReadAt readers.new event) (map name_read names.now)) }
    ensures kept { OnOk result (Keeps readers.old readers.new) }
{
    for name in names {
        readers.add(alloc, *name, event)?;
    }
    Ok(())
}

/// Adds what a choice reads.
fn add_choice(alloc: Global, choice: &Choice, readers: &mut Readers) -> Result<(), Memory>
    ensures added { OnOk result (AllByRecursion (IsReadAt readers.new choice.now.event) (choice_reads (choice_tree choice.now))) }
    ensures kept { OnOk result (Keeps readers.old readers.new) }
{
    let names = names_of(alloc, choice)?;
    add_names_of(alloc, names.as_slice(), choice.event, readers)
}

fn add_choices(alloc: Global, choices: &[Choice], readers: &mut Readers) -> Result<(), Memory>
    ensures added { OnOk result (AreReadBy readers.new choices.now) }
    ensures kept { OnOk result (Keeps readers.old readers.new) }
{
    for choice in choices {
        add_choice(alloc, choice, readers)?;
    }
    Ok(())
}

/// Adds an event that reads what state invariants name.
fn add_invariants(
    alloc: Global,
    invariants: &[Invariant],
    event: u32,
    readers: &mut Readers,
) -> Result<(), Memory>
    ensures added { OnOk result (AllByRecursion (IsReadAt readers.new event) (predicate_names (map invariant_tree invariants.now))) }
    ensures kept { OnOk result (Keeps readers.old readers.new) }
{
    let names = names_of_invariants(alloc, invariants)?;
    add_names_of(alloc, names.as_slice(), event, readers)
}

/// What state invariants name.
fn names_of_invariants(alloc: Global, invariants: &[Invariant]) -> Result<Items<Name>, Memory>
    ensures { IfOk result (λ names. map name_read names ≡ predicate_names (map invariant_tree invariants.now)) }
{
    let mut found = Items::new(alloc);
    for invariant in invariants {
        add_names(&invariant.pred, &mut found)?;
    }
    Ok(found)
}
