//! The scopes of a source, with the definitions of its instances.

ghost use Rattle.std.specs.Prelude.{◌≡◌, IfOk, IfErr};
ghost use Rattle.cif_source.specs.Source.{source_of};
ghost use Rattle.cif_source.specs.Scoping.{DuplicateDue};
ghost use Rattle.cif_scope.specs.Scopes.{AreNumbered};
ghost use Rattle.cif_scope.specs.Written.{definitions_from, written_bodies};
ghost use Rattle.cif_scope.specs.Indexes.{OnlyDuplicate};

use crate::defining::definitions;
use crate::error::ScopeErr;
use crate::indexing::tabled;
use crate::scopes::Scopes;
use crate::table::Table;
use crate::written::written_bodies;
use cif_ast::Spec;
use cif_base::{Items, Memory};
use std::alloc::Global;

/// The definitions of the instances of each body.
fn defined(alloc: Global, spec: &Spec, table: &Table) -> Result<Items<Items<Option<u32>>>, Memory>
    ensures { IfOk result (λ all. all ≡ definitions_from table.now 0 (written_bodies (source_of spec.now))) }
{
    let written = written_bodies(alloc, spec)?;
    definitions(alloc, table, written.as_slice())
}

/// The scopes of all bodies of a source, where none declares a name twice. No other rule is asked.
pub fn number_scopes(alloc: Global, spec: &Spec) -> Result<Scopes, ScopeErr>
    ensures scopes { IfOk result (λ s. AreNumbered (source_of spec.now) s) }
    ensures twice { IfErr result (λ e. OnlyDuplicate (DuplicateDue (source_of spec.now)) e) }
{
    match tabled(alloc, spec) {
        Ok(table) => {
            let definitions = defined(alloc, spec, &table)?;
            Ok(Scopes { table, definitions })
        }
        Err(error) => Err(error),
    }
}
