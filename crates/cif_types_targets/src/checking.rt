//! Whether assigned variables are declared in their automaton, and assigned once.

ghost use Rattle.std.specs.Prelude.{◌≡◌, ℕ, [], map, IfOk};
ghost use Rattle.std.specs.Result.{IfErr};
ghost use Rattle.cif_ast.specs.View.{view_updates};
ghost use Rattle.cif_source.specs.Source.{source_of};
ghost use Rattle.cif_source.specs.BodyRules.{NotOwnDue, AssignedTwiceDue};
ghost use Rattle.cif_scope.specs.Scopes.{AreScopesOf};
ghost use Rattle.cif_scope.specs.Written.{body_of_written, inside_of, written_bodies};
ghost use Rattle.cif_types_targets.specs.Views.{assigned_of, list_of};
ghost use Rattle.cif_types_targets.specs.Faults as faults;

use crate::assigning::{Assigned, names_assigned};
use crate::error::TargetErr;
use crate::listing::lists;
use crate::marks::Marks;
use cif_ast::{Name, Spec, Update};
use cif_base::Memory;
use cif_scope::{Inside, Looked, Scopes, Written, number, written_bodies};
use std::alloc::Global;

/// The slot of the variable that a name in a body assigns, where the body itself declares it and no instance is passed.
fn own_slot(scopes: &Scopes, body: u32, name: &Name) -> Option<u32>
    ensures { result ≡ faults.own_slot scopes.now body name.now }
{
    match scopes.look(false, body, name) {
        Looked::At(there, slot) => { if there == body { Some(slot) } else { None } }
        Looked::Missing | Looked::Blocked => None,
    }
}

/// Marks a variable with the update that assigns it, or tells that another update did.
fn mark(marks: &mut Marks, slot: u32, one: Assigned<'_>) -> Result<Option<TargetErr>, Memory>
    ensures fault { IfOk result (λ fault. fault ≡ faults.mark_fault marks.old slot (assigned_of one.entry)) }
    ensures marks { IfOk result (λ fault. marks.new ≡ faults.marked marks.old slot (assigned_of one.entry)) }
{
    match marks.of(slot) {
        Some(update) => {
            if update == one.update {
                Ok(None)
            } else {
                Ok(Some(TargetErr::AssignedTwice { at: one.name.at }))
            }
        }
        None => {
            marks.put(slot, one.update)?;
            Ok(None)
        }
    }
}

/// The first fault of the names that a list of updates assigns.
fn first_assigned_fault(
    alloc: Global,
    scopes: &Scopes,
    body: u32,
    all: &[Assigned<'_>],
) -> Result<Option<TargetErr>, Memory>
    ensures { IfOk result (λ fault. fault ≡ faults.assigned_fault scopes.now body [] (map assigned_of all.now)) }
{
    let mut marks = Marks::new(alloc);
    for one in all {
        match own_slot(scopes, body, one.name) {
            Some(slot) => match mark(&mut marks, slot, *one)? {
                Some(fault) => return Ok(Some(fault)),
                None => {}
            },
            None => return Ok(Some(TargetErr::NotOwn { at: one.name.at })),
        }
    }
    Ok(None)
}

fn list_fault(
    alloc: Global,
    scopes: &Scopes,
    body: u32,
    list: &[Update],
) -> Result<Option<TargetErr>, Memory>
    ensures { IfOk result (λ fault. fault ≡ faults.list_fault scopes.now body (view_updates list.now)) }
{
    let all = names_assigned(alloc, list)?;
    first_assigned_fault(alloc, scopes, body, all.as_slice())
}

fn first_list_fault(
    alloc: Global,
    scopes: &Scopes,
    body: u32,
    all: &[&[Update]],
) -> Result<Option<TargetErr>, Memory>
    ensures { IfOk result (λ fault. fault ≡ faults.lists_fault scopes.now body (map list_of all.now)) }
{
    for list in all {
        match list_fault(alloc, scopes, body, list)? {
            Some(fault) => return Ok(Some(fault)),
            None => {}
        }
    }
    Ok(None)
}

/// The first fault of a body by the variables that it assigns.
fn body_fault(
    alloc: Global,
    scopes: &Scopes,
    body: u32,
    inside: Inside<'_>,
) -> Result<Option<TargetErr>, Memory>
    ensures { IfOk result (λ fault. fault ≡ faults.body_fault scopes.now body (inside_of inside.entry)) }
{
    let all = lists(alloc, inside)?;
    first_list_fault(alloc, scopes, body, all.as_slice())
}

fn first_fault(
    alloc: Global,
    scopes: &Scopes,
    written: &[Written<'_>],
) -> Result<Option<TargetErr>, Memory>
    ensures { IfOk result (λ fault. fault ≡ faults.faults_from scopes.now 0 (map body_of_written written.now)) }
{
    for (body, one) in written.iter().enumerate() {
        match body_fault(alloc, scopes, number(body)?, one.inside)? {
            Some(fault) => return Ok(Some(fault)),
            None => {}
        }
    }
    Ok(None)
}

fn source_fault(alloc: Global, spec: &Spec, scopes: &Scopes) -> Result<Option<TargetErr>, Memory>
    ensures { IfOk result (λ fault. fault ≡ faults.faults_from scopes.now 0 (written_bodies (source_of spec.now))) }
{
    let written = written_bodies(alloc, spec)?;
    first_fault(alloc, scopes, written.as_slice())
}

/// Checks that each assigned variable is declared in the body that assigns it, and that no two updates of one list assign the same
/// variable, also in definitions that nobody instantiates.
pub fn check_targets(alloc: Global, spec: &Spec, scopes: &Scopes) -> Result<(), TargetErr>
    requires { AreScopesOf (source_of spec.now) scopes.now }
    ensures own { IfOk result (λ u. (at : ℕ) → NotOwnDue (source_of spec.now) at → ⊥) }
    ensures once { IfOk result (λ u. (at : ℕ) → AssignedTwiceDue (source_of spec.now) at → ⊥) }
    ensures refused { IfErr result (λ e. faults.due (source_of spec.now) e) }
{
    let fault = source_fault(alloc, spec, scopes)?;
    match fault {
        Some(error) => Err(error),
        None => Ok(()),
    }
}
