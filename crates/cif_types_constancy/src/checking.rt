//! Whether all expressions that are to be constant are.

ghost use Rattle.std.specs.Prelude.{◌≡◌, ℕ, map, IfOk, IfErr};
ghost use Rattle.cif_source.specs.Source.{source_of};
ghost use Rattle.cif_source.specs.BodyRules.{NotConstantDue};
ghost use Rattle.cif_scope.specs.Scopes.{AreNumbered};
ghost use Rattle.cif_scope.specs.Written.{body_of_written, written_bodies};
ghost use Rattle.cif_types_constancy.specs.Constancy.{body_unfit, unfit_from};
ghost use Rattle.cif_types_constancy.specs.Due.{ConstancyDue};

use crate::collecting::{body_types, body_values};
use crate::constancy::{types_unfit, values_unfit};
use crate::error::ConstancyErr;
use cif_ast::Spec;
use cif_base::Memory;
use cif_scope::{Scopes, Written, number, written_bodies};
use std::alloc::Global;

fn body_unfit(
    alloc: Global,
    scopes: &Scopes,
    body: u32,
    one: Written<'_>,
) -> Result<Option<u32>, Memory>
    ensures { IfOk result (λ at. at ≡ body_unfit scopes.now body (body_of_written one.entry)) }
{
    let types = body_types(alloc, one)?;
    let first = types_unfit(types.as_slice(), scopes, body);
    let values = body_values(alloc, one)?;
    Ok(first.or(values_unfit(values.as_slice(), scopes, body)))
}

fn first_unfit(
    alloc: Global,
    scopes: &Scopes,
    written: &[Written<'_>],
) -> Result<Option<u32>, Memory>
    ensures { IfOk result (λ at. at ≡ unfit_from scopes.now 0 (map body_of_written written.now)) }
{
    for (body, one) in written.iter().enumerate() {
        if let Some(at) = body_unfit(alloc, scopes, number(body)?, *one)? {
            return Ok(Some(at));
        }
    }
    Ok(None)
}

fn source_unfit(alloc: Global, spec: &Spec, scopes: &Scopes) -> Result<Option<u32>, Memory>
    ensures { IfOk result (λ at. at ≡ unfit_from scopes.now 0 (written_bodies (source_of spec.now))) }
{
    let written = written_bodies(alloc, spec)?;
    first_unfit(alloc, scopes, written.as_slice())
}

/// Checks that each name in a bound of a type, the value of a constant or a first value is a constant or a literal, in bodies
/// of definitions too (CIF 3 language reference, "Constants").
pub fn check_constancy(alloc: Global, spec: &Spec, scopes: &Scopes) -> Result<(), ConstancyErr>
    requires { AreNumbered (source_of spec.now) scopes.now }
    ensures constant { IfOk result (λ u. (at : ℕ) → NotConstantDue (source_of spec.now) at → ⊥) }
    ensures refused { IfErr result (λ e. ConstancyDue (source_of spec.now) e) }
{
    let unfit = source_unfit(alloc, spec, scopes)?;
    match unfit {
        Some(at) => Err(ConstancyErr::NotConstant { at }),
        None => Ok(()),
    }
}
