//! The values of constants, by the slots of bodies.

ghost use Rattle.std.specs.Prelude.{◌≡◌, ℕ, map, IfOk};
ghost use Rattle.cif_source.specs.Source.{source_of};
ghost use Rattle.cif_source.specs.BodyRules.{NotConstantDue};
ghost use Rattle.cif_source.specs.InstanceRules.{ConstantRangeDue};
ghost use Rattle.cif_scope.specs.Scopes.{AreScopesOf};
ghost use Rattle.cif_inst_components.specs.Numbers.{AreComponentsOf};
ghost use Rattle.cif_inst_constants.specs.Constants.{HasValues};
ghost use Rattle.cif_inst_constants.specs.Slots.{row_of, slot_of};
ghost use Rattle.cif_inst_names.specs.Objects.{AreValuesOf};
ghost use Rattle.cif_inst_types.specs.Leaves as leaves;
ghost use Rattle.cif_inst_types.specs.Values as values;

use crate::types::{Leaf, leaf_of, value_or_zero};
use cif_ast::{Decl, Spec};
use cif_base::{Items, Memory, Ty};
use cif_inst_components::Components;
use cif_inst_constants::{Constants, Types, declarations, turns};
use cif_inst_names::Value;
use cif_scope::{Scopes, number};
use std::alloc::Global;

/// What a slot with no constant has.
const NO_VALUE: Value = Value::Number(0);

fn constant_value(leaf: Leaf<'_>, value: i64) -> Value
    ensures { result ≡ values.constant_value (leaves.leaf_view leaf.entry).type_of value }
{
    match leaf {
        Leaf::Plain(Ty::Bool) => Value::Truth(value == 1),
        Leaf::Plain(Ty::Int { .. } | Ty::Enum { .. }) | Leaf::Enum(_) => Value::Number(value),
    }
}

/// The value of what is declared in a slot of a body.
fn slot_value(types: &Types<'_>, turns: usize, body: u32, decl: Option<&Decl>) -> Value
    ensures { result ≡ values.slot_value types.now turns body (slot_of decl.entry) }
{
    match decl {
        Some(Decl::Const { ty, name: _, value }) => {
            let leaf = leaf_of(types, turns, body, ty);
            constant_value(leaf, value_or_zero(types, body, value))
        }
        Some(
            Decl::TypeName { .. }
            | Decl::Enum { .. }
            | Decl::Event { .. }
            | Decl::Alg { .. }
            | Decl::Input { .. }
            | Decl::Disc { .. }
            | Decl::Equation { .. }
            | Decl::Inv(_)
            | Decl::Marked(_),
        )
        | None => NO_VALUE,
    }
}

/// The values of the slots of the body in a place.
fn row_values(
    alloc: Global,
    types: &Types<'_>,
    turns: usize,
    place: usize,
    row: &[Option<&Decl>],
) -> Result<Items<Value>, Memory>
    ensures { IfOk result (λ all. all ≡ map (values.slot_value types.now turns place) (row_of row.now)) }
{
    let body = number(place)?;
    let mut all = Items::new(alloc);
    for decl in row {
        all.push(slot_value(types, turns, body, *decl))?;
    }
    Ok(all)
}

fn all_values(alloc: Global, types: &Types<'_>, turns: usize) -> Result<Items<Items<Value>>, Memory>
    ensures { IfOk result (λ all. all ≡ values.values_from types.now turns 0 (map row_of types.now.rows.now)) }
{
    let mut all = Items::new(alloc);
    for (body, row) in types.rows.iter().enumerate() {
        all.push(row_values(alloc, types, turns, body, row.as_slice())?)?;
    }
    Ok(all)
}

/// The value of each constant, by its body and its slot there; a slot with no constant has `Value::Number(0)`. Components that are
/// written as one body have the same values, as what is to be constant names constants and literals alone (CIF 3 language
/// reference, "Constants").
pub fn values_of(
    alloc: Global,
    spec: &Spec,
    scopes: &Scopes,
    components: &Components,
    constants: &Constants,
) -> Result<Items<Items<Value>>, Memory>
    requires scopes { AreScopesOf (source_of spec.now) scopes.now }
    requires components { AreComponentsOf (source_of spec.now) components.now }
    requires constancy { (at : ℕ) → NotConstantDue (source_of spec.now) at → ⊥ }
    requires values { HasValues (source_of spec.now) scopes.now constants.now.numbers constants.now.values }
    requires ranged { (at : ℕ) → ConstantRangeDue (source_of spec.now) at → ⊥ }
    ensures { IfOk result (λ all. AreValuesOf (source_of spec.now) all) }
{
    let rows = declarations(alloc, spec)?;
    let turns = turns(alloc, spec, components)?;
    let types = Types {
        scopes,
        constants,
        rows: rows.as_slice(),
    };
    all_values(alloc, &types, turns)
}
