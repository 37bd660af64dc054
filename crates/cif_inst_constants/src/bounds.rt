//! Whether constant expressions have values, and bounds of types are such.

ghost use Rattle.std.specs.Prelude.{◌≡◌, ℕ, int_lt, map, IfOk, IfErr};
ghost use Rattle.cif_ast.specs.View.{view};
ghost use Rattle.cif_source.specs.Source.{source_of, type_tree, tree_at};
ghost use Rattle.cif_source.specs.BodyRules.{NotConstantDue};
ghost use Rattle.cif_scope.specs.Scopes.{AreScopesOf};
ghost use Rattle.cif_scope.specs.Written.{written_bodies};
ghost use Rattle.cif_inst_components.specs.Numbers.{AreComponentsOf};
ghost use Rattle.cif_types_constancy.specs.Collected.{type_of, typed_of};
ghost use Rattle.cif_inst_constants.specs.Bounds as bounds;
ghost use Rattle.cif_inst_constants.specs.Constants.{HasValues, BoundsDue, ConstDue};
ghost use Rattle.cif_inst_constants.specs.Named.{name_value};
ghost use Rattle.cif_inst_constants.specs.Outcomes.{evaluated};
ghost use Rattle.cif_inst_constants.specs.Used.{first_in, numbered_of, used_bodies, used_from};

use crate::error::ConstErr;
use crate::evaluating::{evaluate, place};
use crate::names::NameValues;
use crate::using::{Body, component_bodies};
use crate::values::Constants;
use cif_ast::{Expr, Spec, TypeUse};
use cif_base::Memory;
use cif_inst_components::Components;
use cif_scope::Scopes;
use cif_types_constancy::{Typed, body_types, body_values};
use std::alloc::Global;

const LEAST_INT: i64 = -2_147_483_648;

const GREATEST_INT: i64 = 2_147_483_647;

/// Whether a number has 32 bits.
fn fits_32(x: i64) -> bool
    ensures { result ≡ bounds.fits_32 x }
{
    LEAST_INT <= x && x <= GREATEST_INT
}

fn crossed(lower_fits: bool, upper_fits: bool, crosses: bool, lower: u32, upper: u32) -> Option<u32>
    ensures { result ≡ bounds.crossed lower_fits upper_fits crosses lower upper }
{
    if !lower_fits {
        Some(lower)
    } else if !upper_fits {
        Some(upper)
    } else if crosses {
        Some(lower)
    } else {
        None
    }
}

/// Where a bound stands that breaks the rule, if one does.
fn bounds_fault(lower: &Expr, upper: &Expr, names: &NameValues<'_>) -> Option<u32>
    ensures { result ≡ bounds.bounds_fault (view lower.now) (view upper.now)
        (evaluated (name_value names.now) (view lower.now)) (evaluated (name_value names.now) (view upper.now)) }
{
    match evaluate(lower, names) {
        None => Some(place(lower)),
        Some(x) => match evaluate(upper, names) {
            None => Some(place(upper)),
            Some(y) => crossed(fits_32(x), fits_32(y), y < x, place(lower), place(upper)),
        },
    }
}

fn type_fault(ty: &TypeUse, names: &NameValues<'_>) -> Option<u32>
    ensures { result ≡ bounds.type_fault (evaluated (name_value names.now)) (type_tree ty.now) }
{
    match ty {
        TypeUse::Bool | TypeUse::Int | TypeUse::Named(_) => None,
        TypeUse::Range(lower, upper) => bounds_fault(lower, upper, names),
    }
}

fn types_fault(types: &[&TypeUse], names: &NameValues<'_>) -> Option<u32>
    ensures { result ≡ bounds.types_fault (evaluated (name_value names.now)) (map type_of types.now) }
{
    for ty in types {
        if let Some(at) = type_fault(ty, names) {
            return Some(at);
        }
    }
    None
}

/// Where an expression stands that has no value.
fn missing_value(expr: &Expr, names: &NameValues<'_>) -> Option<u32>
    ensures { result ≡ bounds.missing_value (view expr.now) (evaluated (name_value names.now) (view expr.now)) }
{
    match evaluate(expr, names) {
        None => Some(place(expr)),
        Some(_value) => None,
    }
}

fn values_fault(values: &[Typed<'_>], names: &NameValues<'_>) -> Option<u32>
    ensures { result ≡ bounds.values_fault (evaluated (name_value names.now)) (map typed_of values.now) }
{
    for typed in values {
        if let Some(at) = missing_value(typed.value, names) {
            return Some(at);
        }
    }
    None
}

fn body_fault(
    alloc: Global,
    scopes: &Scopes,
    constants: &Constants,
    body: Body<'_>,
) -> Result<Option<u32>, Memory>
    ensures { IfOk result (λ at. at
        ≡ bounds.body_fault scopes.now constants.now.numbers constants.now.values (numbered_of body.entry)) }
{
    let names = NameValues {
        scopes,
        numbers: constants.numbers.as_slice(),
        values: constants.values.as_slice(),
        body: body.number,
    };
    let types = body_types(alloc, body.written)?;
    let first = types_fault(types.as_slice(), &names);
    let values = body_values(alloc, body.written)?;
    Ok(first.or(values_fault(values.as_slice(), &names)))
}

fn first_fault(
    alloc: Global,
    scopes: &Scopes,
    constants: &Constants,
    bodies: &[Body<'_>],
) -> Result<Option<u32>, Memory>
    ensures { IfOk result (λ at. at
        ≡ first_in (bounds.body_fault scopes.now constants.now.numbers constants.now.values) (map numbered_of bodies.now)) }
{
    for body in bodies {
        if let Some(at) = body_fault(alloc, scopes, constants, *body)? {
            return Ok(Some(at));
        }
    }
    Ok(None)
}

fn source_fault(
    alloc: Global,
    spec: &Spec,
    scopes: &Scopes,
    components: &Components,
    constants: &Constants,
) -> Result<Option<u32>, Memory>
    ensures { IfOk result (λ at. at ≡ first_in (bounds.body_fault scopes.now constants.now.numbers constants.now.values)
        (used_from (used_bodies scopes.now components.now) 0 (written_bodies (source_of spec.now)))) }
{
    let bodies = component_bodies(alloc, spec, scopes, components)?;
    first_fault(alloc, scopes, constants, bodies.as_slice())
}

/// Checks that in each component, every operand evaluated, each constant expression keeps to 64 bits and has no divisor 0, and
/// that bounds of types have 32 bits, the lower one being no greater than the upper one. Whether values keep to their declared
/// ranges isn't asked (CIF 3 language reference, "Constants", "Types").
pub fn check_bounds(
    alloc: Global,
    spec: &Spec,
    scopes: &Scopes,
    components: &Components,
    constants: &Constants,
) -> Result<(), ConstErr>
    requires scopes { AreScopesOf (source_of spec.now) scopes.now }
    requires components { AreComponentsOf (source_of spec.now) components.now }
    requires constancy { (at : ℕ) → NotConstantDue (source_of spec.now) at → ⊥ }
    requires values { HasValues (source_of spec.now) scopes.now constants.now.numbers constants.now.values }
    ensures bounded { IfOk result (λ u. (at : ℕ) → BoundsDue (source_of spec.now) at → ⊥) }
    ensures refused { IfErr result (λ e. ConstDue (source_of spec.now) e) }
{
    let fault = source_fault(alloc, spec, scopes, components, constants)?;
    match fault {
        Some(at) => Err(ConstErr::ConstantRange { at }),
        None => Ok(()),
    }
}
