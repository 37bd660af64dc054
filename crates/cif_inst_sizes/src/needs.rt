//! What definitions need: those that the names in their expressions stand for, arguments by themselves. So a definition that many
//! arguments lead to is needed once by each of them.

ghost use Rattle.std.specs.Prelude.{◌≡◌, ◌++◌, List, length, map, IfOk, OnOk};
ghost use Rattle.cif_ast.specs.View.{view};
ghost use Rattle.cif_source.specs.Uses.{names_in};
ghost use Rattle.cif_inst_parameters.specs.Given.{given_items};
ghost use Rattle.cif_inst_names.specs.Looking.{AreNamesOf, source_for};
ghost use Rattle.cif_inst_sizes.specs.Definitions.{DefinitionTree, definition_tree, definition_names};
ghost use Rattle.cif_inst_sizes.specs.Naming as naming;
ghost use Rattle.cif_inst_sizes.specs.Needs as needed;
ghost use Rattle.cif_inst_sizes.specs.Weights.{source_by, home};

use crate::definitions::Definition;
use crate::measuring::Measurer;
use crate::weights::Weights;
use cif_ast::{Expr, Name};
use cif_base::{Items, Memory};
use cif_inst_names::Looking;
use cif_scope_uses::{Use, add_arg_uses};
use std::alloc::Global;
use std::slice;

/// Adds the names of an expression.
fn add_names<'a>(value: &'a Expr, found: &mut Vec<Use<'a>>) -> Result<(), Memory>
    ensures { OnOk result (map needed.use_name found.new.items ≡ map needed.use_name found.old.items ++ names_in (view value.now)) }
{
    add_arg_uses(slice::from_ref(value), &[], found)?;
    Ok(())
}

/// The names in the expressions of a definition.
fn names_of<'a>(alloc: Global, definition: &Definition<'a>) -> Result<Vec<Use<'a>>, Memory>
    ensures { IfOk result (λ all. map needed.use_name all.items ≡ definition_names (definition_tree definition.now)) }
{
    let mut all = Vec::new(alloc);
    for value in definition.values.as_slice() {
        if let Some(value) = value {
            add_names(*value, &mut all)?;
        }
    }
    Ok(all)
}

/// Adds what a name stands for, if that is one of so many definitions.
fn add_need(
    measurer: &Measurer<'_, '_, '_>,
    total: usize,
    name: &Name,
    needs: &mut Items<u32>,
) -> Result<(), Memory>
    requires names { AreNamesOf measurer.now.looking.now }
    ensures needed { OnOk result ((all : List DefinitionTree) → naming.AreArguments (map given_items measurer.now.looking.now.given.now) measurer.now.weights.now.firsts all
        → naming.IsNeeded (source_by measurer.now) measurer.now.weights.now.count all (home measurer.now) name.now needs.new) }
    ensures more { OnOk result (needed.Adds total needs.old needs.new) }
{
    match measurer.definition(name)? {
        None => Ok(()),
        Some(number) => {
            if number as usize >= total {
                return Err(Memory);
            }
            needs.push(number)
        }
    }
}

/// What these names of a component need.
fn needs_of(
    alloc: Global,
    measurer: &Measurer<'_, '_, '_>,
    total: usize,
    names: &[Use<'_>],
) -> Result<Items<u32>, Memory>
    requires names { AreNamesOf measurer.now.looking.now }
    ensures needed { IfOk result (λ needs. (all : List DefinitionTree) → naming.AreArguments (map given_items measurer.now.looking.now.given.now) measurer.now.weights.now.firsts all
        → needed.AreNeeded (source_by measurer.now) measurer.now.weights.now.count all (home measurer.now) (map needed.use_name names.now) needs) }
    ensures inside { IfOk result (λ needs. needed.AreBelow total needs) }
{
    let mut needs = Items::new(alloc);
    for one in names {
        add_need(measurer, total, one.name, &mut needs)?;
    }
    Ok(needs)
}

/// What a definition needs.
fn definition_needs(
    alloc: Global,
    looking: &Looking<'_, '_>,
    weights: &Weights,
    total: usize,
    definition: &Definition<'_>,
) -> Result<Items<u32>, Memory>
    requires names { AreNamesOf looking.now }
    ensures needed { IfOk result (λ needs. (all : List DefinitionTree) → naming.AreArguments (map given_items looking.now.given.now) weights.now.firsts all
        → naming.AreNeedsOf (source_for looking.now) weights.now.count all (definition_tree definition.now) needs) }
    ensures inside { IfOk result (λ needs. needed.AreBelow total needs) }
{
    let names = names_of(alloc, definition)?;
    let measurer = Measurer {
        looking,
        weights,
        component: definition.component,
    };
    needs_of(alloc, &measurer, total, names.as_slice())
}

/// What each definition needs. The time is linear in the definitions.
pub fn all_needs(
    alloc: Global,
    looking: &Looking<'_, '_>,
    weights: &Weights,
    definitions: &[Definition<'_>],
) -> Result<Items<Items<u32>>, Memory>
    requires names { AreNamesOf looking.now }
    ensures needed { IfOk result (λ needs. (all : List DefinitionTree) → naming.AreArguments (map given_items looking.now.given.now) weights.now.firsts all
        → naming.AreNeeds (source_for looking.now) weights.now.count all (map definition_tree definitions.now) needs) }
    ensures sized { IfOk result (λ needs. length needs ≡ length definitions.now) }
    ensures inside { IfOk result (λ needs. needed.AreAllBelow (length definitions.now) needs) }
{
    let mut all = Items::new(alloc);
    for definition in definitions {
        all.push(definition_needs(alloc, looking, weights, definitions.len(), definition)?)?;
    }
    Ok(all)
}
