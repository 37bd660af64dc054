//! Whether each name of a source is declared, and of the sort that its position asks for.

ghost use Rattle.std.specs.Prelude.{◌≡◌, map, IfOk};
ghost use Rattle.std.specs.Result.{IfErr};
ghost use Rattle.cif_source.specs.Source.{source_of};
ghost use Rattle.cif_scope.specs.Scopes.{AreNumbered};
ghost use Rattle.cif_scope.specs.Written.{body_of_written, inside_of, written_bodies};
ghost use Rattle.cif_resolve.specs.Bodies as bodies;
ghost use Rattle.cif_resolve.specs.Faults.{ScopeDue, KeepsNames, AreFitting};

use crate::collecting::{own_names_of, uses_of};
use crate::counting::first_count;
use crate::testing::{first_own, first_used};
use cif_ast::Spec;
use cif_base::Memory;
use cif_scope::{Inside, ScopeErr, Scopes, Written, number, number_scopes, written_bodies};
use std::alloc::Global;

fn counts_fault(
    scopes: &Scopes,
    written: &[Written<'_>],
    body: u32,
    inside: Inside<'_>,
) -> Result<Option<ScopeErr>, Memory>
    ensures { IfOk result (λ fault. fault
        ≡ bodies.counts_under scopes.now (map body_of_written written.now) body (inside_of inside.entry)) }
{
    match inside {
        Inside::Group(items) => first_count(scopes, written, body, items),
        Inside::Automaton(_) => Ok(None),
    }
}

/// The first fault of a body by its names.
fn body_fault(
    alloc: Global,
    scopes: &Scopes,
    written: &[Written<'_>],
    body: u32,
    one: Written<'_>,
) -> Result<Option<ScopeErr>, Memory>
    ensures { IfOk result (λ fault. fault
        ≡ bodies.body_fault scopes.now (map body_of_written written.now) body (body_of_written one.entry)) }
{
    let uses = uses_of(alloc, scopes, written, body, one)?;
    match first_used(scopes, body, uses.as_slice()) {
        Some(fault) => return Ok(Some(fault)),
        None => {}
    }
    let names = own_names_of(alloc, one.inside)?;
    match first_own(scopes, body, names.as_slice()) {
        Some(fault) => return Ok(Some(fault)),
        None => {}
    }
    counts_fault(scopes, written, body, one.inside)
}

fn first_fault(
    alloc: Global,
    scopes: &Scopes,
    written: &[Written<'_>],
) -> Result<Option<ScopeErr>, Memory>
    ensures { IfOk result (λ fault. fault
        ≡ bodies.faults_from scopes.now (map body_of_written written.now) 0 (map body_of_written written.now)) }
{
    for (body, one) in written.iter().enumerate() {
        match body_fault(alloc, scopes, written, number(body)?, *one)? {
            Some(fault) => return Ok(Some(fault)),
            None => {}
        }
    }
    Ok(None)
}

/// The first fault of a source by its names.
fn names_fault(alloc: Global, spec: &Spec, scopes: &Scopes) -> Result<Option<ScopeErr>, Memory>
    ensures { let all = written_bodies (source_of spec.now) in
        IfOk result (λ fault. fault ≡ bodies.faults_from scopes.now all 0 all) }
{
    let written = written_bodies(alloc, spec)?;
    first_fault(alloc, scopes, written.as_slice())
}

/// Checks that each name is declared where it is looked up and is of the sort that its position asks for, and that each
/// instance has as many arguments as its definition has parameters.
fn check_names(alloc: Global, spec: &Spec, scopes: &Scopes) -> Result<(), ScopeErr>
    requires { AreNumbered (source_of spec.now) scopes.now }
    ensures fit { IfOk result (λ u. KeepsNames (source_of spec.now)) }
    ensures refused { IfErr result (λ e. ScopeDue (source_of spec.now) e) }
{
    let fault = names_fault(alloc, spec, scopes)?;
    match fault {
        Some(error) => Err(error),
        None => Ok(()),
    }
}

/// The scopes of all bodies of a source in which each name is declared where it is looked up, once in its scope, and is of the
/// sort that its position asks for. Whether a definition, type or constant reaches itself isn't asked.
pub fn names_fit(alloc: Global, spec: &Spec) -> Result<Scopes, ScopeErr>
    ensures scopes { IfOk result (λ s. AreFitting (source_of spec.now) s) }
    ensures refused { IfErr result (λ e. ScopeDue (source_of spec.now) e) }
{
    match number_scopes(alloc, spec) {
        Ok(scopes) => {
            check_names(alloc, spec, &scopes)?;
            Ok(scopes)
        }
        Err(error) => Err(error),
    }
}
