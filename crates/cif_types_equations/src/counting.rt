//! Numbers of definitions that are not 1.

ghost use Rattle.std.specs.Prelude.{◌≡◌, map, option_map, IfOk};
ghost use Rattle.cif_ast.specs.View.{view};
ghost use Rattle.cif_source.specs.Source.{equation_tree, location_tree};
ghost use Rattle.cif_source.specs.Components.{same_text};
ghost use Rattle.cif_scope.specs.Written.{inside_of};
ghost use Rattle.cif_types_equations.specs.Counts as counts;

use crate::tallies::Tally;
use cif_ast::{Expr, Loc, LocEquation};
use cif_base::{Memory, Text};
use cif_scope::{Inside, number};

/// A declared value as a number of definitions.
pub fn value_count(value: &Option<Expr>) -> u32
    ensures { result ≡ counts.value_count (option_map view value.now) }
{
    match value {
        Some(_) => 1,
        None => 0,
    }
}

fn unless_one(count: u32) -> Option<u32>
    ensures { result ≡ counts.unless_one count }
{
    if count == 1 { None } else { Some(count) }
}

fn is_named(equation: &LocEquation, name: &Text) -> bool
    ensures { result ≡ same_text equation.now.name.text name.now }
{
    equation.name.text.as_slice() == name.as_slice()
}

/// How many of these equations define a name.
fn equation_count(equations: &[LocEquation], name: &Text) -> usize
    ensures { result ≡ counts.equation_count name.now (map equation_tree equations.now) }
{
    let mut count = 0;
    for equation in equations {
        if is_named(equation, name) {
            count += 1;
        }
    }
    count
}

/// The number of definitions of a name in a location, beside `own` of the component, where that is not 1.
fn location_other(own: u32, name: &Text, loc: &Loc) -> Result<Option<u32>, Memory>
    ensures { IfOk result (λ other. other ≡ counts.location_other own name.now (location_tree loc.now)) }
{
    let there = number(equation_count(loc.equations.as_slice(), name))?;
    Ok(unless_one(number(own as usize + there as usize)?))
}

fn first_other(own: u32, name: &Text, locs: &[Loc]) -> Result<Option<u32>, Memory>
    ensures { IfOk result (λ other. other ≡ counts.first_other own name.now (map location_tree locs.now)) }
{
    for loc in locs {
        match location_other(own, name, loc)? {
            Some(count) => return Ok(Some(count)),
            None => {}
        }
    }
    Ok(None)
}

fn is_at(placed: Option<u32>, count: usize) -> bool
    ensures { result ≡ counts.is_at placed count }
{
    match placed {
        Some(place) => place as usize == count,
        None => false,
    }
}

/// Whether a name is defined once everywhere, by its tally: the component defines it and none of its locations does, or the
/// component does not and each of its locations has one definition.
fn is_single(own: u32, placed: Option<u32>, count: usize) -> bool
    ensures { result ≡ counts.is_single own placed count }
{
    (own == 1 && is_at(placed, 0)) || (own == 0 && is_at(placed, count))
}

/// The first number of definitions of a name that is not 1, where the component has `own` of its own. Locations are gone through
/// only where there is one.
pub fn other_count(
    inside: Inside<'_>,
    tally: Tally,
    own: u32,
    name: &Text,
) -> Result<Option<u32>, Memory>
    ensures { IfOk result (λ other. other ≡ counts.other_count (inside_of inside.entry) tally own name.now) }
{
    match inside {
        Inside::Group(_) => Ok(unless_one(own)),
        Inside::Automaton(body) => {
            let locs = body.locs.as_slice();
            if is_single(own, tally.placed, locs.len()) {
                Ok(None)
            } else {
                first_other(own, name, locs)
            }
        }
    }
}
