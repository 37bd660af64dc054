//! The names of locations and automata.

ghost use Rattle.std.specs.Prelude.{◌≡◌, ◌++◌, map, flat_map, unwrap_or, [], OnOk};
ghost use Rattle.cif_source.specs.Components.{Component};
ghost use Rattle.cif_source.specs.Source.{EquationTree, automaton_body, automaton_tree, decl_tree, equation_tree, location_tree};
ghost use Rattle.cif_source.specs.Uses.{asking, event_asked, value_uses, decl_uses, location_uses, body_uses};
ghost use Rattle.cif_scope_uses.specs.Views.{use_of};

use crate::declarations::{add_decl_uses, add_listed};
use crate::edges::{add_edges, add_values};
use crate::expressions::add_names;
use crate::uses::{Asked, Use};
use cif_ast::{AutoBody, Decl, Loc, LocEquation, Name};
use cif_base::{Items, Memory};

fn add_decls<'a>(all: &'a [Decl], found: &mut Vec<Use<'a>>) -> Result<(), Memory>
    ensures { OnOk result (map use_of found.new.items
        ≡ map use_of found.old.items ++ flat_map decl_uses (map decl_tree all.now)) }
{
    for decl in all {
        add_decl_uses(decl, found)?;
    }
    Ok(())
}

/// Adds the events of a list that may be left out.
fn add_event_list<'a>(list: &'a Option<Items<Name>>, found: &mut Vec<Use<'a>>) -> Result<(), Memory>
    ensures { OnOk result (map use_of found.new.items
        ≡ map use_of found.old.items ++ asking event_asked (unwrap_or list.now [])) }
{
    match list {
        Some(names) => add_listed(names.as_slice(), Asked::Event, found),
        None => Ok(()),
    }
}

fn add_equations<'a>(all: &'a [LocEquation], found: &mut Vec<Use<'a>>) -> Result<(), Memory>
    ensures { OnOk result (map use_of found.new.items ≡ map use_of found.old.items
        ++ flat_map (λ (q : EquationTree). value_uses q.value) (map equation_tree all.now)) }
{
    for equation in all {
        add_names(&equation.value, Asked::Value, found)?;
    }
    Ok(())
}

fn add_location<'a>(loc: &'a Loc, found: &mut Vec<Use<'a>>) -> Result<(), Memory>
    ensures { OnOk result (map use_of found.new.items
        ≡ map use_of found.old.items ++ location_uses (location_tree loc.now)) }
{
    add_values(loc.marked.as_slice(), found)?;
    add_equations(loc.equations.as_slice(), found)?;
    add_edges(loc.edges.as_slice(), found)
}

fn add_locations<'a>(all: &'a [Loc], found: &mut Vec<Use<'a>>) -> Result<(), Memory>
    ensures { OnOk result (map use_of found.new.items
        ≡ map use_of found.old.items ++ flat_map location_uses (map location_tree all.now)) }
{
    for loc in all {
        add_location(loc, found)?;
    }
    Ok(())
}

/// Adds the names that the body of an automaton writes, but for those that are looked up in it alone.
pub fn add_automaton_uses<'a>(body: &'a AutoBody, found: &mut Vec<Use<'a>>) -> Result<(), Memory>
    ensures { OnOk result ((c : Component) → map use_of found.new.items
        ≡ map use_of found.old.items ++ body_uses c (automaton_body (automaton_tree body.now))) }
{
    add_decls(body.decls.as_slice(), found)?;
    add_event_list(&body.alphabet, found)?;
    add_event_list(&body.monitor, found)?;
    add_locations(body.locs.as_slice(), found)
}
