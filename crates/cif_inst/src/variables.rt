//! The inputs and the discrete variables of all components, with their types and first values (CIF 3 language reference, "Input
//! variables", "Discrete variables").

ghost use Rattle.std.specs.Prelude.{◌≡◌, map, IfOk};
ghost use Rattle.cif_net.specs.View.{input_tree, var_tree};
ghost use Rattle.cif_inst_paths.specs.Rows.{rows_of};
ghost use Rattle.cif_inst.specs.Typing as of_types;
ghost use Rattle.cif_inst.specs.Variables as variables;
ghost use Rattle.cif_inst_paths.specs.Views.{row_tree};
ghost use Rattle.cif_inst.specs.Views.{datum_tree};
ghost use Rattle.cif_inst.specs.declared.declarations.Sort.TheVariants.{Input as input_sort, Discrete as variable_sort};

use crate::declarations::{Datum, Sort, data_of};
use crate::typing::{Typing, body_of, path_of, ty_of};
use cif_base::{Items, Memory};
use cif_inst_paths::Row;
use cif_inst_types::first_value;
use cif_net::{Input, Var};
use std::alloc::Global;

/// The inputs and the discrete variables of a source.
#[derive(Drop)]
pub struct Stored {
    pub inputs: Items<Input>,
    pub vars: Items<Var>,
}

/// The variable of a declaration, with its type and first value.
fn variable(alloc: Global, typing: &Typing, datum: &Datum) -> Result<Var, Memory>
    requires { variables.StandsIn typing.now (datum_tree datum.now) }
    ensures { IfOk result (λ v. var_tree v ≡ variables.stored (of_types.typed_source typing.now) (datum_tree datum.now)) }
{
    let first = first_value(
        typing.types,
        typing.turns,
        body_of(typing, datum),
        datum.ty,
        datum.value,
    )?;
    let path = path_of(alloc, datum)?;
    let found = ty_of(alloc, typing, datum)?;
    Ok(Var {
        path,
        ty: found.ty,
        first,
        literals: found.literals,
    })
}

/// The same as an input.
fn input(alloc: Global, typing: &Typing, datum: &Datum) -> Result<Input, Memory>
    requires { variables.StandsIn typing.now (datum_tree datum.now) }
    ensures { IfOk result (λ i. input_tree i ≡ variables.stored (of_types.typed_source typing.now) (datum_tree datum.now)) }
{
    let made = variable(alloc, typing, datum)?;
    Ok(Input {
        path: made.path,
        ty: made.ty,
        first: made.first,
        literals: made.literals,
    })
}

fn all_variables(alloc: Global, typing: &Typing, found: &[Datum]) -> Result<Items<Var>, Memory>
    requires { variables.StandAll typing.now (map datum_tree found.now) }
    ensures { IfOk result (λ all. map var_tree all ≡ map (variables.stored (of_types.typed_source typing.now)) (map datum_tree found.now)) }
{
    let mut all = Items::new(alloc);
    for datum in found {
        all.push(variable(alloc, typing, datum)?)?;
    }
    Ok(all)
}

fn all_inputs(alloc: Global, typing: &Typing, found: &[Datum]) -> Result<Items<Input>, Memory>
    requires { variables.StandAll typing.now (map datum_tree found.now) }
    ensures { IfOk result (λ all. map input_tree all ≡ map (variables.stored (of_types.typed_source typing.now)) (map datum_tree found.now)) }
{
    let mut all = Items::new(alloc);
    for datum in found {
        all.push(input(alloc, typing, datum)?)?;
    }
    Ok(all)
}

/// The inputs and the variables of these components.
pub(crate) fn all_stored(alloc: Global, typing: &Typing, rows: &[Row]) -> Result<Stored, Memory>
    requires types { of_types.AreTypesOf typing.now }
    requires rows { map row_tree rows.now ≡ rows_of (of_types.typed_source typing.now) }
    ensures inputs { IfOk result (λ all. map input_tree all.inputs ≡ variables.all_stored (of_types.typed_source typing.now) input_sort (map row_tree rows.now)) }
    ensures variables { IfOk result (λ all. map var_tree all.vars ≡ variables.all_stored (of_types.typed_source typing.now) variable_sort (map row_tree rows.now)) }
{
    let inputs = data_of(alloc, Sort::Input, rows)?;
    let vars = data_of(alloc, Sort::Discrete, rows)?;
    Ok(Stored {
        inputs: all_inputs(alloc, typing, inputs.as_slice())?,
        vars: all_variables(alloc, typing, vars.as_slice())?,
    })
}
