//! The declared ranges of what a net stores.

ghost use Rattle.std.specs.Prelude.{◌≡◌, true, ℕ, map, slice_get, IfOk};
ghost use Rattle.cif_net_model.specs.Facts.{is_type};
ghost use Rattle.cif_net_model.specs.Interval.{as_range, stored_range};
ghost use Rattle.cif_net_model.specs.Meaning.{type_range};
ghost use Rattle.cif_net.specs.View.{net_tree};
ghost use Rattle.cif_net.specs.declared.data.Input.{Input};
ghost use Rattle.cif_net.specs.declared.data.Var.{Var};
ghost use Rattle.cif_alg_measure.specs.TypeBounds.{bounds_or_zero, type_bounds};
ghost use Rattle.cif_alg_measure.specs.Meanings.{table_range};

use crate::operators::truths;
use cif_base::{Items, Iv, Memory, Ty};
use cif_net::{Input, Net, Var, nets_are_nets};
use std::alloc::Global;

/// The declared ranges of the variables and of the inputs of a net, each by number.
#[derive(Debug, Drop)]
pub struct Declared {
    pub vars: Items<Iv>,
    pub inputs: Items<Iv>,
}

/// The declared ranges of a net.
pub fn declared_ranges(alloc: Global, net: &Net) -> Result<Declared, Memory>
    ensures vars { IfOk result (λ d. (k : ℕ) → table_range d.vars k ≡ stored_range (slice_get (net_tree net.now).vars k)) }
    ensures inputs { IfOk result (λ d. (k : ℕ) → table_range d.inputs k ≡ stored_range (slice_get (net_tree net.now).inputs k)) }
{
    nets_are_nets();
    Ok(Declared {
        vars: var_ranges(alloc, net.vars.as_slice())?,
        inputs: input_ranges(alloc, net.inputs.as_slice())?,
    })
}

fn var_ranges(alloc: Global, vars: &[Var]) -> Result<Items<Iv>, Memory>
    ensures { IfOk result (λ all. all ≡ map (λ (v : Var). type_bounds v.ty) vars.now) }
{
    let mut all = Items::new(alloc);
    for var in vars {
        all.push(range_of_type(var.ty))?;
    }
    Ok(all)
}

fn input_ranges(alloc: Global, inputs: &[Input]) -> Result<Items<Iv>, Memory>
    ensures { IfOk result (λ all. all ≡ map (λ (v : Input). type_bounds v.ty) inputs.now) }
{
    let mut all = Items::new(alloc);
    for input in inputs {
        all.push(range_of_type(input.ty))?;
    }
    Ok(all)
}

/// The numbers of a type, and 0 alone of one that has none.
pub(crate) fn range_of_type(ty: Ty) -> Iv
    ensures { result ≡ type_bounds ty }
{
    match ty {
        Ty::Bool => truths(),
        Ty::Int { lo, hi } => between_or_zero(lo, hi),
        Ty::Enum { size } => between_or_zero(0, i64::from(size) - 1),
    }
}

fn between_or_zero(lo: i64, hi: i64) -> Iv
    ensures { result ≡ bounds_or_zero lo hi }
{
    match Iv::try_new(lo, hi) {
        Some(range) => range,
        None => Iv::point(0),
    }
}
