//! The names of scopes by their slots, or a name that a scope declares twice.

ghost use Rattle.std.specs.Prelude.{map, IfOk, IfErr};
ghost use Rattle.cif_source.specs.Source.{source_of};
ghost use Rattle.cif_source.specs.Scoping.{DuplicateDue};
ghost use Rattle.cif_scope.specs.Indexes.{idents_of, IsIndexOf, AreIndexed, StandsTwice, StandsTwiceIn, OnlyDuplicate, IsTabled};

use crate::drafting::{drafted, number};
use crate::error::ScopeErr;
use crate::names::Names;
use crate::scope::{Scope, ScopeName};
use crate::table::Table;
use cif_ast::Spec;
use cif_base::Items;
use std::alloc::Global;

/// The names of a scope by their slots.
fn indexed(alloc: Global, names: &[ScopeName]) -> Result<Names, ScopeErr>
    ensures index { IfOk result (λ keys. IsIndexOf names.now keys) }
    ensures twice { IfErr result (λ e. OnlyDuplicate (StandsTwice (idents_of names.now)) e) }
{
    number(names.len())?;
    let mut keys = Names::new(alloc);
    for name in names {
        if let Some(first) = keys.slot(&name.name.text) {
            return Err(ScopeErr::Duplicate {
                at: name.name.at,
                first: names[first].name.at,
            });
        }
        keys.add(alloc, &name.name.text)?;
    }
    Ok(keys)
}

/// The same of all scopes.
fn all_indexed(alloc: Global, scopes: &[Scope]) -> Result<Items<Names>, ScopeErr>
    ensures index { IfOk result (λ all. AreIndexed scopes.now all) }
    ensures twice { IfErr result (λ e. OnlyDuplicate (StandsTwiceIn scopes.now) e) }
{
    let mut all = Items::new(alloc);
    for scope in scopes {
        all.push(indexed(alloc, scope.names.as_slice())?)?;
    }
    Ok(all)
}

/// The table of a source's bodies.
pub fn tabled(alloc: Global, spec: &Spec) -> Result<Table, ScopeErr>
    ensures table { IfOk result (λ tb. IsTabled (source_of spec.now) tb) }
    ensures twice { IfErr result (λ e. OnlyDuplicate (DuplicateDue (source_of spec.now)) e) }
{
    let scopes = drafted(alloc, spec)?;
    number(scopes.len())?;
    match all_indexed(alloc, scopes.as_slice()) {
        Ok(names) => Ok(Table { scopes, names }),
        Err(error) => Err(error),
    }
}
