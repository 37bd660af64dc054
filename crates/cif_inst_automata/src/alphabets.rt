//! The alphabets of automata, and what they monitor (CIF 3 language reference, "Synchronization", "Monitoring").

ghost use Rattle.std.specs.Prelude.{◌≡◌, ◌+◌, ◌<◌, ◌++◌, [], None, map, flat_map, length, unwrap_or, IfOk, OnOk};
ghost use Rattle.std.specs.Result.{IfErr};
ghost use Rattle.cif_source.specs.Objects.{components_of, events as events_of};
ghost use Rattle.cif_source.specs.Components.{body_of};
ghost use Rattle.cif_source.specs.Source as source;
ghost use Rattle.cif_inst_names.specs.Looking.{AreNamesOf, source_for, component_at};
ghost use Rattle.cif_inst_automata.specs.Alphabets as alphabets;
ghost use Rattle.cif_inst_automata.specs.Marks as marked;
ghost use Rattle.cif_inst_paths.specs.Names.{AreMatchedNames};
ghost use Rattle.cif_inst_paths.specs.Rows.{rows_of};
ghost use Rattle.cif_inst_paths.specs.Views.{row_tree};

use crate::error::AutomataErr;
use crate::marks::{first_unmarked, give_mark};
use crate::used::{Used, all_used, events_as};
use cif_ast::{AutoBody, Edge, EventUse, Loc, Name, Role};
use cif_base::{Items, Memory};
use cif_inst_names::Looking;
use cif_inst_paths::Row;
use cif_net::NetRole;
use cif_scope::{Inside, number};
use std::alloc::Global;

/// The alphabet of an automaton, by the numbers of events in the net, each list in the order of the text and with repetitions.
#[derive(Drop)]
pub struct Alphabet {
    /// The number of the component that is the automaton.
    pub component: u32,
    /// The events of its alphabet, declared or by the edges that synchronise.
    pub events: Items<u32>,
    /// The events that it monitors.
    pub monitors: Items<u32>,
    /// The uses of events on its edges.
    pub used: Items<Used>,
}

/// The events that names of a component denote.
fn events_named(
    alloc: Global,
    looking: &Looking<'_, '_>,
    component: u32,
    names: &[Name],
) -> Result<Items<u32>, Memory>
    requires names { AreNamesOf looking.now }
    requires component { component < length (components_of (source_for looking.now)) }
    ensures { IfOk result (λ all. all ≡ alphabets.events_named looking.now component names.now) }
{
    let mut all = Items::new(alloc);
    for name in names {
        let event = looking.event(component, name);
        all.push(event)?;
    }
    Ok(all)
}

/// Where names stand.
fn name_places(alloc: Global, names: &[Name]) -> Result<Items<u32>, Memory>
    ensures { IfOk result (λ all. all ≡ alphabets.name_places names.now) }
{
    let mut all = Items::new(alloc);
    for name in names {
        all.push(name.at)?;
    }
    Ok(all)
}

fn add_use_place(event_use: &EventUse, places: &mut Items<u32>) -> Result<(), Memory>
    ensures { OnOk result (places.new ≡ places.old ++ alphabets.use_place (source.use_tree event_use.now)) }
{
    match &event_use.role {
        Role::Sync => places.push(event_use.name.at),
        Role::Send(_) | Role::Recv => Ok(()),
    }
}

fn add_use_places(uses: &[EventUse], places: &mut Items<u32>) -> Result<(), Memory>
    ensures { OnOk result (places.new ≡ places.old ++ flat_map alphabets.use_place (map source.use_tree uses.now)) }
{
    for event_use in uses {
        add_use_place(event_use, places)?;
    }
    Ok(())
}

fn add_edge_places(edges: &[Edge], places: &mut Items<u32>) -> Result<(), Memory>
    ensures { OnOk result (places.new ≡ places.old ++ flat_map alphabets.edge_places (map source.edge_tree edges.now)) }
{
    for edge in edges {
        add_use_places(edge.uses.as_slice(), places)?;
    }
    Ok(())
}

/// Where the events of edges that synchronise are named.
fn use_places(alloc: Global, locs: &[Loc]) -> Result<Items<u32>, Memory>
    ensures { IfOk result (λ all. all ≡ flat_map alphabets.location_places (map source.location_tree locs.now)) }
{
    let mut places = Items::new(alloc);
    for loc in locs {
        add_edge_places(loc.edges.as_slice(), &mut places)?;
    }
    Ok(places)
}

/// The declared alphabet, or else the events of the edges that synchronise.
fn alphabet_by(
    alloc: Global,
    looking: &Looking<'_, '_>,
    component: u32,
    automaton: &AutoBody,
    synced: &Items<u32>,
) -> Result<Items<u32>, Memory>
    requires names { AreNamesOf looking.now }
    requires component { component < length (components_of (source_for looking.now)) }
    ensures { IfOk result (λ all. all ≡ alphabets.alphabet_by looking.now component automaton.now.alphabet synced.now) }
{
    match &automaton.alphabet {
        Some(names) => events_named(alloc, looking, component, names.as_slice()),
        None => synced.copy(alloc),
    }
}

/// The events that are monitored, which are all of the alphabet where none is named.
fn monitors_by(
    alloc: Global,
    looking: &Looking<'_, '_>,
    component: u32,
    automaton: &AutoBody,
    events: &Items<u32>,
) -> Result<Items<u32>, Memory>
    requires names { AreNamesOf looking.now }
    requires component { component < length (components_of (source_for looking.now)) }
    ensures { IfOk result (λ all. all ≡ alphabets.monitors_by looking.now component automaton.now.monitor events.now) }
{
    match &automaton.monitor {
        Some(names) if names.is_empty() => events.copy(alloc),
        Some(names) => events_named(alloc, looking, component, names.as_slice()),
        None => Ok(Items::new(alloc)),
    }
}

/// Where the events that are monitored are named.
fn monitor_places(alloc: Global, automaton: &AutoBody) -> Result<Items<u32>, Memory>
    ensures { IfOk result (λ all. all ≡ alphabets.name_places (unwrap_or automaton.now.monitor [])) }
{
    match &automaton.monitor {
        Some(names) => name_places(alloc, names.as_slice()),
        None => Ok(Items::new(alloc)),
    }
}

/// Checks that each of these events has the mark. The error is where the first with another mark is named, by `places`.
fn check_marks(
    marks: &Items<u32>,
    mark: u32,
    events: &[u32],
    places: &[u32],
) -> Result<(), AutomataErr>
    ensures within { OnOk result (alphabets.first_failing (marked.is_unmarked mark marks.now) events.now places.now ≡ None) }
    ensures told { IfErr result (λ e. alphabets.tells e (alphabets.first_failing (marked.is_unmarked mark marks.now) events.now places.now)) }
{
    match places.get(first_unmarked(marks, mark, events)) {
        Some(at) => Err(AutomataErr::AlphabetLacks { at: *at }),
        None => Ok(()),
    }
}

/// The alphabet of an automaton and what it monitors, or where an event outside the alphabet is named first. `own` is the
/// number of the automaton's component, and its mark, which no automaton before it has; `used` is what its edges use.
fn alphabet_of(
    alloc: Global,
    looking: &Looking<'_, '_>,
    own: (u32, u32),
    automaton: &AutoBody,
    used: Items<Used>,
    marks: &mut Items<u32>,
) -> Result<Alphabet, AutomataErr>
    requires names { AreMatchedNames looking.now }
    requires component { own.0 < length (components_of (source_for looking.now)) }
    requires written { body_of (component_at looking.now own.0) ≡ source.automaton_body (source.automaton_tree automaton.now) }
    requires mark { own.1 ≡ own.0 + 1 }
    requires used { used ≡ alphabets.automaton_used looking.now own.0 (source.automaton_tree automaton.now) }
    requires before { marked.AreMarks (length (events_of (source_for looking.now))) own.0 marks.old }
    ensures found { IfOk result (λ a. a ≡ alphabets.automaton_alphabet looking.now own.0 (source.automaton_tree automaton.now)) }
    ensures within { IfOk result (λ a. alphabets.automaton_lacks looking.now own.0 (source.automaton_tree automaton.now) ≡ None) }
    ensures told { IfErr result (λ e. alphabets.tells e (alphabets.automaton_lacks looking.now own.0 (source.automaton_tree automaton.now))) }
    ensures after { OnOk result (marked.AreMarks (length (events_of (source_for looking.now))) own.1 marks.new) }
{
    let (component, mark) = own;
    let synced = events_as(alloc, NetRole::Sync, used.as_slice())?;
    let events = alphabet_by(alloc, looking, component, automaton, &synced)?;
    give_mark(marks, mark, events.as_slice());
    let places = use_places(alloc, automaton.locs.as_slice())?;
    check_marks(marks, mark, synced.as_slice(), places.as_slice())?;
    let monitors = monitors_by(alloc, looking, component, automaton, &events)?;
    let places = monitor_places(alloc, automaton)?;
    check_marks(marks, mark, monitors.as_slice(), places.as_slice())?;
    Ok(Alphabet {
        component,
        events,
        monitors,
        used,
    })
}

/// The alphabets of the automata among these components, or where an event outside one is named first. Each event has the mark
/// of the last automaton that has it in its alphabet, so none is searched for.
pub(crate) fn all_alphabets(
    alloc: Global,
    looking: &Looking<'_, '_>,
    rows: &[Row],
    events: usize,
) -> Result<Items<Alphabet>, AutomataErr>
    requires names { AreMatchedNames looking.now }
    requires rows { map row_tree rows.now ≡ rows_of (source_for looking.now) }
    requires events { events ≡ length (events_of (source_for looking.now)) }
    ensures found { IfOk result (λ all. all ≡ alphabets.rows_alphabets looking.now 0 (map row_tree rows.now)) }
    ensures within { IfOk result (λ all. alphabets.rows_lacks looking.now 0 (map row_tree rows.now) ≡ None) }
    ensures told { IfErr result (λ e. alphabets.tells e (alphabets.rows_lacks looking.now 0 (map row_tree rows.now))) }
{
    let mut marks = Items::filled(alloc, 0, events)?;
    let mut all = Items::new(alloc);
    for (place, row) in rows.iter().enumerate() {
        if let Inside::Automaton(body) = row.inside {
            let own = (number(place)?, number(place + 1)?);
            let used = all_used(alloc, looking, own.0, body.locs.as_slice())?;
            all.push(alphabet_of(alloc, looking, own, body, used, &mut marks)?)?;
        }
    }
    Ok(all)
}
