//! The definitions of the algebraic variables of all components, as they stand in the source (CIF 3 language reference, "Algebraic
//! variables").

ghost use Rattle.std.specs.Prelude.{◌≡◌, ◌++◌, map, IfOk, OnOk};
ghost use Rattle.cif_scope.specs.Written.{inside_of};
ghost use Rattle.cif_inst_names.specs.Looking.{AreNamesOf};
ghost use Rattle.cif_inst_sizes.specs.Definitions.{definition_tree, value_tree};
ghost use Rattle.cif_inst_sizes.specs.Weights.{AreWeights};
ghost use Rattle.cif_inst.specs.Definitions as definitions;
ghost use Rattle.cif_inst.specs.Equations.{value_for, values_in};
ghost use Rattle.cif_inst.specs.Views.{datum_tree};
ghost use Rattle.cif_inst_paths.specs.Views.{row_tree};

use crate::algebraic::own_value;
use crate::declarations::{Datum, Sort, add_row};
use crate::equations::{Defined, Equations, equations_of};
use cif_alg_measure::Measure;
use cif_ast::Expr;
use cif_base::{Items, Memory, Text};
use cif_inst_names::Looking;
use cif_inst_paths::Row;
use cif_inst_sizes::{Definition, Weights, value_measure};
use cif_scope::number;
use std::alloc::Global;

/// The values of a name in locations.
fn located_values<'a>(
    alloc: Global,
    located: &[Equations<'a>],
    name: &Text,
) -> Result<Vec<Option<&'a Expr>>, Memory>
    ensures { IfOk result (λ all. map value_tree all.items ≡ map (value_for name.now) (map values_in located.now)) }
{
    let mut all = Vec::new(alloc);
    for there in located {
        all.push(there.of(name))?;
    }
    Ok(all)
}

/// The definitions of a variable: its component's own, or else one for each location.
fn values_of<'a>(
    alloc: Global,
    defined: &Defined<'a>,
    datum: &Datum<'a>,
) -> Result<Vec<Option<&'a Expr>>, Memory>
    ensures { let d = datum_tree datum.now in IfOk result (λ all. map value_tree all.items
        ≡ definitions.values_with (values_in defined.now.own) (map values_in defined.now.located.items) d.name.text d.value) }
{
    match own_value(datum, &defined.own) {
        Some(value) => {
            let mut all = Vec::new(alloc);
            all.push(Some(value))?;
            Ok(all)
        }
        None => located_values(alloc, defined.located.as_slice(), &datum.name.text),
    }
}

/// Adds the definitions of these variables.
fn add_data<'a>(
    alloc: Global,
    defined: &Defined<'a>,
    found: &[Datum<'a>],
    all: &mut Vec<Definition<'a>>,
) -> Result<(), Memory>
    ensures { OnOk result (map definition_tree all.new.items ≡ map definition_tree all.old.items
        ++ map (definitions.definition_with (values_in defined.now.own) (map values_in defined.now.located.items)) (map datum_tree found.now)) }
{
    for datum in found {
        all.push(Definition {
            component: datum.component,
            values: values_of(alloc, defined, datum)?,
        })?;
    }
    Ok(())
}

/// Adds those of the variables that a component declares.
fn add_component<'a>(
    alloc: Global,
    component: u32,
    row: &'a Row<'a>,
    all: &mut Vec<Definition<'a>>,
) -> Result<(), Memory>
    ensures { OnOk result (map definition_tree all.new.items ≡ map definition_tree all.old.items
        ++ definitions.body_definitions component row.now.prefix (inside_of row.now.inside)) }
{
    let mut found = Vec::new(alloc);
    add_row(Sort::Algebraic, component, row, &mut found)?;
    let defined = equations_of(alloc, row.inside)?;
    add_data(alloc, &defined, found.as_slice(), all)
}

/// The definitions of the algebraic variables of these components, by number.
pub(crate) fn all_definitions<'a>(
    alloc: Global,
    rows: &'a [Row<'a>],
) -> Result<Vec<Definition<'a>>, Memory>
    ensures { IfOk result (λ all. map definition_tree all.items ≡ definitions.rows_definitions 0 (map row_tree rows.now)) }
{
    let mut all = Vec::new(alloc);
    for (place, row) in rows.iter().enumerate() {
        add_component(alloc, number(place)?, row, &mut all)?;
    }
    Ok(all)
}

/// Adds the measures of the expressions of a definition.
fn add_measures(
    looking: &Looking<'_, '_>,
    weights: &Weights,
    definition: &Definition<'_>,
    all: &mut Items<Measure>,
) -> Result<(), Memory>
    requires names { AreNamesOf looking.now }
    requires weights { AreWeights looking.now weights.now }
{
    let component = definition.component;
    for value in definition.values.as_slice() {
        if let Some(value) = value {
            all.push(value_measure(looking, weights, component, *value)?)?;
        }
    }
    Ok(())
}

/// The measures of the expressions of these definitions. They decide only whether there is memory for a net in which an algebraic
/// variable depends on itself, so no clause speaks of them.
pub(crate) fn definition_measures(
    alloc: Global,
    looking: &Looking<'_, '_>,
    weights: &Weights,
    definitions: &[Definition<'_>],
) -> Result<Items<Measure>, Memory>
    requires names { AreNamesOf looking.now }
    requires weights { AreWeights looking.now weights.now }
{
    let mut all = Items::new(alloc);
    for definition in definitions {
        add_measures(looking, weights, definition, &mut all)?;
    }
    Ok(all)
}
