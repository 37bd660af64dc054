//! The inputs, the discrete variables and the algebraic variables of a source.

ghost use Rattle.std.specs.Prelude.{◌≡◌, map, IfOk};
ghost use Rattle.cif_net.specs.View.{alg_tree, input_tree, var_tree};
ghost use Rattle.cif_inst.specs.Algebraic.{rows_algs};
ghost use Rattle.cif_inst_paths.specs.Rows.{rows_of};
ghost use Rattle.cif_inst.specs.Typing.{AreTypesOf, typed_source};
ghost use Rattle.cif_inst.specs.Variables as variables;
ghost use Rattle.cif_inst_paths.specs.Views.{row_tree};
ghost use Rattle.cif_inst.specs.declared.declarations.Sort.TheVariants.{Input as input_sort, Discrete as variable_sort};

use crate::algebraic::all_algs;
use crate::typing::Typing;
use crate::variables::all_stored;
use cif_base::{Items, Memory};
use cif_inst_paths::Row;
use cif_net::{Alg, Input, Var};
use std::alloc::Global;

/// What of a net has types.
#[derive(Drop)]
pub struct Objects {
    pub inputs: Items<Input>,
    pub vars: Items<Var>,
    pub algs: Items<Alg>,
}

/// Those of a source with these components.
pub(crate) fn objects_of(alloc: Global, typing: &Typing, rows: &[Row]) -> Result<Objects, Memory>
    requires types { AreTypesOf typing.now }
    requires rows { map row_tree rows.now ≡ rows_of (typed_source typing.now) }
    ensures inputs { IfOk result (λ all. map input_tree all.inputs ≡ variables.all_stored (typed_source typing.now) input_sort (map row_tree rows.now)) }
    ensures variables { IfOk result (λ all. map var_tree all.vars ≡ variables.all_stored (typed_source typing.now) variable_sort (map row_tree rows.now)) }
    ensures algebraic { IfOk result (λ all. map alg_tree all.algs ≡ rows_algs (typed_source typing.now) 0 (map row_tree rows.now)) }
{
    let stored = all_stored(alloc, typing, rows)?;
    let algs = all_algs(alloc, typing, rows)?;
    Ok(Objects {
        inputs: stored.inputs,
        vars: stored.vars,
        algs,
    })
}
