//! The automata of a net.

ghost use Rattle.std.specs.Prelude.{◌≡◌, ◌<◌, map, length, IfOk};
ghost use Rattle.std.specs.List.{position_or_len};
ghost use Rattle.cif_source.specs.Objects.{components_of};
ghost use Rattle.cif_source.specs.Source as source;
ghost use Rattle.cif_inst_model.specs.Flat.{location_name, net_of_source};
ghost use Rattle.cif_net.specs.View.{auto_tree};
ghost use Rattle.cif_inst_names.specs.Looking.{AreNamesOf, source_for};
ghost use Rattle.cif_inst_automata.specs.Autos as autos;
ghost use Rattle.cif_inst_automata.specs.Alphabets.{automaton_alphabet, rows_alphabets};
ghost use Rattle.cif_inst_paths.specs.Names.{AreMatchedNames};
ghost use Rattle.cif_inst_paths.specs.Rows.{rows_of};
ghost use Rattle.cif_inst_paths.specs.Views.{row_tree};

use crate::alphabets::Alphabet;
use crate::edges::all_edges;
use cif_ast::{AutoBody, Loc};
use cif_base::{Items, Memory, Text};
use cif_inst_names::Looking;
use cif_inst_paths::Row;
use cif_net::Auto;
use cif_scope::{Inside, number};
use std::alloc::Global;

/// The name of a location, empty for one without a name.
fn name_of(alloc: Global, loc: &Loc) -> Result<Text, Memory>
    ensures { IfOk result (λ name. name ≡ location_name (source.location_tree loc.now)) }
{
    match &loc.name {
        Some(name) => name.text.copy(alloc),
        None => Ok(Text::new(alloc)),
    }
}

fn location_names(alloc: Global, locs: &[Loc]) -> Result<Items<Text>, Memory>
    ensures { IfOk result (λ names. names ≡ map location_name (map source.location_tree locs.now)) }
{
    let mut names = Items::new(alloc);
    for loc in locs {
        names.push(name_of(alloc, loc)?)?;
    }
    Ok(names)
}

/// The place of the first initial location, and the number of locations where there is none.
fn first_place(locs: &[Loc]) -> usize
    ensures { result ≡ position_or_len autos.is_initial (map source.location_tree locs.now) }
{
    for (place, loc) in locs.iter().enumerate() {
        if loc.initial {
            return place;
        }
    }
    locs.len()
}

/// The path of the component whose inner names have this prefix.
fn own_path(alloc: Global, prefix: &Text) -> Result<Text, Memory>
    ensures { IfOk result (λ path. path ≡ autos.without_dot prefix.now) }
{
    let mut path = prefix.copy(alloc)?;
    path.truncate(prefix.len().saturating_sub(1));
    Ok(path)
}

/// An automaton of the net, with its alphabet.
fn automaton(
    alloc: Global,
    looking: &Looking<'_, '_>,
    component: u32,
    prefix: &Text,
    automaton: &AutoBody,
    alphabet: &Alphabet,
) -> Result<Auto, Memory>
    requires names { AreNamesOf looking.now }
    requires component { component < length (components_of (source_for looking.now)) }
    requires alphabet { alphabet.now ≡ automaton_alphabet looking.now component (source.automaton_tree automaton.now) }
    ensures { IfOk result (λ a. auto_tree a ≡ autos.auto_for looking.now component prefix.now (source.automaton_tree automaton.now)) }
{
    let locs = automaton.locs.as_slice();
    Ok(Auto {
        path: own_path(alloc, prefix)?,
        locs: location_names(alloc, locs)?,
        first: number(first_place(locs))?,
        alphabet: alphabet.events.copy(alloc)?,
        monitors: alphabet.monitors.copy(alloc)?,
        edges: all_edges(alloc, looking, component, locs)?,
    })
}

/// The automata of the net of a source, by its components and the alphabets of the automata among them.
pub fn all_autos(
    alloc: Global,
    looking: &Looking<'_, '_>,
    rows: &[Row],
    alphabets: &[Alphabet],
) -> Result<Items<Auto>, Memory>
    requires names { AreMatchedNames looking.now }
    requires rows { map row_tree rows.now ≡ rows_of (source_for looking.now) }
    requires alphabets { alphabets.now ≡ rows_alphabets looking.now 0 (map row_tree rows.now) }
    ensures { IfOk result (λ all. map auto_tree all ≡ (net_of_source (source_for looking.now)).autos) }
{
    let mut all = Items::new(alloc);
    for (place, row) in rows.iter().enumerate() {
        if let Inside::Automaton(body) = row.inside {
            let alphabet = &alphabets[all.len()];
            let component = number(place)?;
            all.push(automaton(alloc, looking, component, &row.prefix, body, alphabet)?)?;
        }
    }
    Ok(all)
}
