//! Arguments as definitions, by their numbers.

ghost use Rattle.std.specs.Prelude.{◌≡◌, ◌++◌, map, IfOk, OnOk};
ghost use Rattle.cif_inst_parameters.specs.Given.{given_items};
ghost use Rattle.cif_inst_sizes.specs.Definitions.{definition_tree};
ghost use Rattle.cif_inst_sizes.specs.Naming as naming;

use crate::definitions::Definition;
use cif_base::{Items, Memory};
use cif_inst_parameters::Given;
use cif_scope::number;
use std::alloc::Global;

/// What is given for a parameter. An event and a location have no expression.
fn argument<'a>(alloc: Global, given: &Given<'a>) -> Result<Definition<'a>, Memory>
    ensures { IfOk result (λ d. definition_tree d ≡ naming.argument_tree given.now) }
{
    let mut values = Vec::new(alloc);
    match given {
        Given::Named(_) => Ok(Definition {
            component: 0,
            values,
        }),
        Given::Value { giver, value, .. } => {
            values.push(Some(*value))?;
            Ok(Definition {
                component: *giver,
                values,
            })
        }
    }
}

fn add_arguments<'a>(
    alloc: Global,
    given: &[Given<'a>],
    all: &mut Vec<Definition<'a>>,
) -> Result<(), Memory>
    ensures { OnOk result (map definition_tree all.new.items ≡ map definition_tree all.old.items ++ naming.arguments_tree given.now) }
{
    for one in given {
        all.push(argument(alloc, one)?)?;
    }
    Ok(())
}

/// Adds what is given for the parameters of each component.
pub fn add_all_arguments<'a>(
    alloc: Global,
    given: &[Vec<Given<'a>>],
    all: &mut Vec<Definition<'a>>,
) -> Result<(), Memory>
    ensures { OnOk result (map definition_tree all.new.items ≡ map definition_tree all.old.items ++ naming.all_arguments (map given_items given.now)) }
{
    for of_component in given {
        add_arguments(alloc, of_component.as_slice(), all)?;
    }
    Ok(())
}

/// The number of the first argument of each component, where the first of all has the number `first`.
pub fn firsts_of(
    alloc: Global,
    first: usize,
    given: &[Vec<Given<'_>>],
) -> Result<Items<u32>, Memory>
    ensures { IfOk result (λ firsts. firsts ≡ naming.firsts_from first (map given_items given.now)) }
{
    let mut firsts = Items::new(alloc);
    let mut next = number(first)?;
    for of_component in given {
        firsts.push(next)?;
        next = number(next as usize + of_component.len())?;
    }
    Ok(firsts)
}
