//! The scopes of a source that keeps all rules on scopes.

ghost use Rattle.std.specs.Prelude.{ℕ, IfOk};
ghost use Rattle.std.specs.Result.{IfErr};
ghost use Rattle.cif_source.specs.Source.{source_of};
ghost use Rattle.cif_source.specs.Scoping.{DefinitionCycleDue};
ghost use Rattle.cif_scope.specs.Scopes.{AreNumbered, AreScopesOf};
ghost use Rattle.cif_resolve.specs.Faults.{ScopeDue};

use crate::fitting::names_fit;
use cif_ast::Spec;
use cif_resolve_cycles::cyclic_name;
use cif_scope::{ScopeErr, Scopes};
use std::alloc::Global;

/// Checks that no definition, type or constant reaches itself.
fn check_cycles(alloc: Global, spec: &Spec, scopes: &Scopes) -> Result<(), ScopeErr>
    requires { AreNumbered (source_of spec.now) scopes.now }
    ensures acyclic { IfOk result (λ u. (at : ℕ) → DefinitionCycleDue (source_of spec.now) at → ⊥) }
    ensures refused { IfErr result (λ e. ScopeDue (source_of spec.now) e) }
{
    match cyclic_name(alloc, spec, scopes)? {
        Some(at) => Err(ScopeErr::DefinitionCycle { at }),
        None => Ok(()),
    }
}

/// The scopes of all bodies of a source in which each name is declared where it is looked up, once in its scope, and is of the
/// sort that its position asks for, each instance has as many arguments as its definition has parameters, and no definition, type
/// or constant reaches itself.
pub fn resolve(alloc: Global, spec: &Spec) -> Result<Scopes, ScopeErr>
    ensures scopes { IfOk result (λ s. AreScopesOf (source_of spec.now) s) }
    ensures refused { IfErr result (λ e. ScopeDue (source_of spec.now) e) }
{
    match names_fit(alloc, spec) {
        Ok(scopes) => {
            check_cycles(alloc, spec, &scopes)?;
            Ok(scopes)
        }
        Err(error) => Err(error),
    }
}
