//! Whether values keep to their declared ranges.

ghost use Rattle.std.specs.Prelude.{◌≡◌, ◌+◌, ℕ, map, length, IfOk, IfErr};
ghost use Rattle.cif_ast.specs.View.{view};
ghost use Rattle.cif_source.specs.Source.{source_of};
ghost use Rattle.cif_source.specs.Objects as source;
ghost use Rattle.cif_source.specs.BodyRules.{NotConstantDue};
ghost use Rattle.cif_source.specs.InstanceRules.{ConstantRangeDue};
ghost use Rattle.cif_scope.specs.Scopes.{AreScopesOf};
ghost use Rattle.cif_scope.specs.Written.{written_bodies};
ghost use Rattle.cif_inst_components.specs.Numbers.{AreComponentsOf};
ghost use Rattle.cif_types_constancy.specs.Collected.{typed_of};
ghost use Rattle.cif_inst_constants.specs.Constants.{HasValues, BoundsDue, ConstDue};
ghost use Rattle.cif_inst_constants.specs.Named.{table_value};
ghost use Rattle.cif_inst_constants.specs.Outcomes.{evaluated};
ghost use Rattle.cif_inst_constants.specs.Slots.{row_of, written_slots};
ghost use Rattle.cif_inst_constants.specs.Used.{first_in, numbered_of, used_bodies, used_from};
ghost use Rattle.cif_inst_constants.specs.Walked as walked;

use crate::bounds::check_bounds;
use crate::error::ConstErr;
use crate::evaluating::place;
use crate::ranges::{Types, ValueRange};
use crate::slots::declarations;
use crate::turning::turns;
use crate::using::{Body, component_bodies};
use crate::values::{Constants, constant_values};
use cif_ast::{Expr, Spec};
use cif_base::Memory;
use cif_inst_components::Components;
use cif_scope::Scopes;
use cif_types_constancy::{Typed, body_values};
use std::alloc::Global;

/// Where an expression stands, if it has no value or its value leaves the range.
fn leaves(expr: &Expr, value: Option<i64>, range: ValueRange) -> Option<u32>
    ensures { result ≡ walked.leaves (view expr.now) value (walked.range_view range) }
{
    match value {
        None => Some(place(expr)),
        Some(value) => {
            if range.lo <= value && value <= range.hi {
                None
            } else {
                Some(place(expr))
            }
        }
    }
}

fn value_fault(
    types: &Types<'_>,
    body: u32,
    turns: usize,
    typed: Typed<'_>,
) -> Result<Option<u32>, Memory>
    ensures { IfOk result (λ at. at ≡ walked.leaves (typed_of typed.entry).1
        (evaluated (table_value types.now.scopes.now types.now.constants.now.numbers types.now.constants.now.values body)
        (typed_of typed.entry).1)
        (walked.walked types.now.scopes.now types.now.constants.now.numbers types.now.constants.now.values
        (map row_of types.now.rows.now) turns body (typed_of typed.entry).0)) }
{
    let value = types.constants.value(types.scopes, body, typed.value);
    let range = types.walk(body, typed.ty, turns)?;
    Ok(leaves(typed.value, value, range))
}

fn values_fault(
    types: &Types<'_>,
    body: u32,
    turns: usize,
    values: &[Typed<'_>],
) -> Result<Option<u32>, Memory>
    ensures { IfOk result (λ at. at ≡ walked.values_fault
        (evaluated (table_value types.now.scopes.now types.now.constants.now.numbers types.now.constants.now.values body))
        (walked.walked types.now.scopes.now types.now.constants.now.numbers types.now.constants.now.values
        (map row_of types.now.rows.now) turns body)
        (map typed_of values.now)) }
{
    for typed in values {
        if let Some(at) = value_fault(types, body, turns, *typed)? {
            return Ok(Some(at));
        }
    }
    Ok(None)
}

fn body_fault(
    alloc: Global,
    types: &Types<'_>,
    turns: usize,
    body: Body<'_>,
) -> Result<Option<u32>, Memory>
    ensures { IfOk result (λ at. at ≡ walked.body_fault types.now.scopes.now types.now.constants.now.numbers
        types.now.constants.now.values (map row_of types.now.rows.now) turns (numbered_of body.entry)) }
{
    let values = body_values(alloc, body.written)?;
    values_fault(types, body.number, turns, values.as_slice())
}

fn first_fault(
    alloc: Global,
    types: &Types<'_>,
    turns: usize,
    bodies: &[Body<'_>],
) -> Result<Option<u32>, Memory>
    ensures { IfOk result (λ at. at ≡ first_in (walked.body_fault types.now.scopes.now types.now.constants.now.numbers
        types.now.constants.now.values (map row_of types.now.rows.now) turns) (map numbered_of bodies.now)) }
{
    for body in bodies {
        if let Some(at) = body_fault(alloc, types, turns, *body)? {
            return Ok(Some(at));
        }
    }
    Ok(None)
}

/// Where a value of a component stands that leaves its declared range.
fn ranges_fault(
    alloc: Global,
    spec: &Spec,
    scopes: &Scopes,
    components: &Components,
    constants: &Constants,
) -> Result<Option<u32>, Memory>
    requires { AreComponentsOf (source_of spec.now) components.now }
    ensures { let all = written_bodies (source_of spec.now) in
        IfOk result (λ at. at ≡ first_in (walked.body_fault scopes.now constants.now.numbers constants.now.values (map written_slots all)
        (length (source.declarations (source_of spec.now)) + 1)) (used_from (used_bodies scopes.now components.now) 0 all)) }
{
    let bodies = component_bodies(alloc, spec, scopes, components)?;
    let rows = declarations(alloc, spec)?;
    let turns = turns(alloc, spec, components)?;
    let types = Types {
        scopes,
        constants,
        rows: rows.as_slice(),
    };
    first_fault(alloc, &types, turns, bodies.as_slice())
}

/// The values of the constants of a source, in whose components, every operand evaluated, each constant expression keeps to 64
/// bits and has no divisor 0, values keep to their declared ranges, and bounds of types have 32 bits, the lower one being no
/// greater than the upper one (CIF 3 language reference, "Constants", "Types").
pub fn check_constants(
    alloc: Global,
    spec: &Spec,
    scopes: &Scopes,
    components: &Components,
) -> Result<Constants, ConstErr>
    requires scopes { AreScopesOf (source_of spec.now) scopes.now }
    requires components { AreComponentsOf (source_of spec.now) components.now }
    requires constancy { (at : ℕ) → NotConstantDue (source_of spec.now) at → ⊥ }
    ensures values { IfOk result (λ all. HasValues (source_of spec.now) scopes.now all.numbers all.values) }
    ensures none { IfOk result (λ all. (at : ℕ) → ConstantRangeDue (source_of spec.now) at → ⊥) }
    ensures refused { IfErr result (λ e. ConstDue (source_of spec.now) e) }
{
    let constants = constant_values(alloc, spec, scopes, components)?;
    check_bounds(alloc, spec, scopes, components, &constants)?;
    let fault = ranges_fault(alloc, spec, scopes, components, &constants)?;
    match fault {
        Some(at) => Err(ConstErr::ConstantRange { at }),
        None => Ok(constants),
    }
}
