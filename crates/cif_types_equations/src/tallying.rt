//! The tallies of the equations of a body.

ghost use Rattle.std.specs.Prelude.{◌≡◌, [], map, IfOk, OnOk};
ghost use Rattle.cif_source.specs.Source.{decl_tree, equation_tree, location_tree};
ghost use Rattle.cif_scope.specs.Written.{inside_of};
ghost use Rattle.cif_types_equations.specs.Views.{decl_of};
ghost use Rattle.cif_types_equations.specs.Tallies as tallied;
ghost use Rattle.cif_types_equations.specs.Faults.{body_tallied};

use crate::tallies::{Tallies, Tally};
use cif_ast::{Decl, Loc, LocEquation};
use cif_base::{Memory, Text};
use cif_scope::{Inside, number};
use std::alloc::Global;

/// Tallies an equation of the component.
fn tally_own(alloc: Global, tallies: &mut Tallies, name: &Text) -> Result<(), Memory>
    ensures { OnOk result (tallies.new ≡ tallied.own_tallied tallies.old name.now) }
{
    let tally = tallies.of(name);
    let own = number(tally.own as usize + 1)?;
    let more = Tally {
        own,
        placed: tally.placed,
    };
    tallies.put(alloc, name, more)
}

fn tally_decl(alloc: Global, tallies: &mut Tallies, decl: &Decl) -> Result<(), Memory>
    ensures { OnOk result (tallies.new ≡ tallied.decl_tallied tallies.old (decl_tree decl.now)) }
{
    match decl {
        Decl::Equation { name, value: _ } => tally_own(alloc, tallies, &name.text),
        Decl::TypeName { .. }
        | Decl::Enum { .. }
        | Decl::Event { .. }
        | Decl::Const { .. }
        | Decl::Alg { .. }
        | Decl::Input { .. }
        | Decl::Disc { .. }
        | Decl::Inv(_)
        | Decl::Marked(_) => Ok(()),
    }
}

fn tally_decls(alloc: Global, tallies: &mut Tallies, decls: &[&Decl]) -> Result<(), Memory>
    ensures { OnOk result (tallies.new ≡ tallied.decls_tallied tallies.old (map decl_of decls.now)) }
{
    for decl in decls {
        tally_decl(alloc, tallies, decl)?;
    }
    Ok(())
}

/// In how many locations a name has exactly one equation, with one more in the location at `place`.
fn follows(place: u32, placed: Option<u32>) -> Result<Option<u32>, Memory>
    ensures { IfOk result (λ next. next ≡ tallied.follows place placed) }
{
    match placed {
        Some(count) => {
            if count == place {
                Ok(Some(number(place as usize + 1)?))
            } else {
                Ok(None)
            }
        }
        None => Ok(None),
    }
}

/// Tallies an equation of the location at `place`.
fn tally_equation(
    alloc: Global,
    tallies: &mut Tallies,
    place: u32,
    name: &Text,
) -> Result<(), Memory>
    ensures { OnOk result (tallies.new ≡ tallied.equation_tallied tallies.old place name.now) }
{
    let tally = tallies.of(name);
    let placed = follows(place, tally.placed)?;
    let more = Tally {
        own: tally.own,
        placed,
    };
    tallies.put(alloc, name, more)
}

fn tally_equations(
    alloc: Global,
    tallies: &mut Tallies,
    place: u32,
    equations: &[LocEquation],
) -> Result<(), Memory>
    ensures { OnOk result (tallies.new ≡ tallied.equations_tallied tallies.old place (map equation_tree equations.now)) }
{
    for equation in equations {
        tally_equation(alloc, tallies, place, &equation.name.text)?;
    }
    Ok(())
}

fn tally_locations(alloc: Global, tallies: &mut Tallies, locs: &[Loc]) -> Result<(), Memory>
    ensures { OnOk result (tallies.new ≡ tallied.locations_tallied tallies.old 0 (map location_tree locs.now)) }
{
    for (place, loc) in locs.iter().enumerate() {
        tally_equations(alloc, tallies, number(place)?, loc.equations.as_slice())?;
    }
    Ok(())
}

/// The tallies of a body with these declarations.
pub fn tallies_of(alloc: Global, inside: Inside<'_>, decls: &[&Decl]) -> Result<Tallies, Memory>
    ensures { IfOk result (λ all. all ≡ body_tallied (inside_of inside.entry) (map decl_of decls.now)) }
{
    let mut tallies = Tallies::new(alloc);
    tally_decls(alloc, &mut tallies, decls)?;
    match inside {
        Inside::Group(_) => {}
        Inside::Automaton(body) => tally_locations(alloc, &mut tallies, body.locs.as_slice())?,
    }
    Ok(tallies)
}
