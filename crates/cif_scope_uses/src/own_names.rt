//! The names that are looked up in the scope of their own automaton or group alone.

ghost use Rattle.std.specs.Prelude.{◌≡◌, ◌++◌, map, filter_map, flat_map, OnOk};
ghost use Rattle.cif_source.specs.Objects.{decls_in, locs_in};
ghost use Rattle.cif_source.specs.Source.{EquationTree, automaton_body, automaton_tree, decl_tree, edge_tree, equation_tree, location_tree};
ghost use Rattle.cif_source.specs.Uses.{left_side, decl_own_names, edge_target, location_own_names};
ghost use Rattle.cif_scope_uses.specs.Views.{own_name_of};

use cif_ast::{AutoBody, Decl, Edge, Ident, Loc, LocEquation};
use cif_base::Memory;

/// A name that is looked up in its own scope alone: the target of an edge, or the left side of an equation.
#[derive(Clone, Copy, Drop)]
pub enum OwnName<'a> {
    Target(&'a Ident),
    LeftSide(&'a Ident),
}

/// Adds the left side of a declaration that is an equation.
pub fn add_decl_own_names<'a>(decl: &'a Decl, found: &mut Vec<OwnName<'a>>) -> Result<(), Memory>
    ensures { OnOk result (map own_name_of found.new.items
        ≡ map own_name_of found.old.items ++ decl_own_names (decl_tree decl.now)) }
{
    match decl {
        Decl::Equation { name, value: _ } => Ok(found.push(OwnName::LeftSide(name))?),
        _ => Ok(()),
    }
}

fn add_decls<'a>(all: &'a [Decl], found: &mut Vec<OwnName<'a>>) -> Result<(), Memory>
    ensures { OnOk result (map own_name_of found.new.items
        ≡ map own_name_of found.old.items ++ flat_map decl_own_names (map decl_tree all.now)) }
{
    for decl in all {
        add_decl_own_names(decl, found)?;
    }
    Ok(())
}

fn add_equations<'a>(all: &'a [LocEquation], found: &mut Vec<OwnName<'a>>) -> Result<(), Memory>
    ensures { OnOk result (map own_name_of found.new.items ≡ map own_name_of found.old.items
        ++ map (λ (q : EquationTree). left_side q.name) (map equation_tree all.now)) }
{
    for equation in all {
        found.push(OwnName::LeftSide(&equation.name))?;
    }
    Ok(())
}

fn add_targets<'a>(all: &'a [Edge], found: &mut Vec<OwnName<'a>>) -> Result<(), Memory>
    ensures { OnOk result (map own_name_of found.new.items
        ≡ map own_name_of found.old.items ++ filter_map edge_target (map edge_tree all.now)) }
{
    for edge in all {
        if let Some(target) = &edge.target {
            found.push(OwnName::Target(target))?;
        }
    }
    Ok(())
}

fn add_location<'a>(loc: &'a Loc, found: &mut Vec<OwnName<'a>>) -> Result<(), Memory>
    ensures { OnOk result (map own_name_of found.new.items
        ≡ map own_name_of found.old.items ++ location_own_names (location_tree loc.now)) }
{
    add_equations(loc.equations.as_slice(), found)?;
    add_targets(loc.edges.as_slice(), found)
}

fn add_locations<'a>(all: &'a [Loc], found: &mut Vec<OwnName<'a>>) -> Result<(), Memory>
    ensures { OnOk result (map own_name_of found.new.items
        ≡ map own_name_of found.old.items ++ flat_map location_own_names (map location_tree all.now)) }
{
    for loc in all {
        add_location(loc, found)?;
    }
    Ok(())
}

/// Adds the names that the body of an automaton looks up in it alone.
pub fn add_automaton_own_names<'a>(
    body: &'a AutoBody,
    found: &mut Vec<OwnName<'a>>,
) -> Result<(), Memory>
    ensures { let written = automaton_body (automaton_tree body.now) in
        OnOk result (map own_name_of found.new.items ≡ map own_name_of found.old.items
        ++ (flat_map decl_own_names (decls_in written) ++ flat_map location_own_names (locs_in written))) }
{
    add_decls(body.decls.as_slice(), found)?;
    add_locations(body.locs.as_slice(), found)
}
