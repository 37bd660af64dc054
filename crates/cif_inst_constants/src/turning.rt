//! How many names of types a range is found through at most.

ghost use Rattle.std.specs.Prelude.{◌≡◌, ◌+◌, length, map, Option, IfOk};
ghost use Rattle.cif_source.specs.Source.{source_of};
ghost use Rattle.cif_source.specs.Objects as source;
ghost use Rattle.cif_scope.specs.Written.{body_of_written, written_bodies};
ghost use Rattle.cif_inst_components.specs.Numbers.{AreComponentsOf};
ghost use Rattle.cif_inst_constants.specs.Turns as turned;

use cif_ast::Spec;
use cif_base::{Items, Memory};
use cif_inst_components::{Component, Components};
use cif_scope::{Written, number, written_bodies};
use cif_types_constancy::body_decls;
use std::alloc::Global;

fn declaration_count(alloc: Global, one: Written<'_>) -> Result<u32, Memory>
    ensures { IfOk result (λ n. n ≡ turned.declaration_count (body_of_written one.entry)) }
{
    let decls = body_decls(alloc, one)?;
    number(decls.len())
}

/// How many declarations each of these bodies has.
fn declaration_counts(alloc: Global, written: &[Written<'_>]) -> Result<Items<u32>, Memory>
    ensures { IfOk result (λ counts. counts ≡ map turned.declaration_count (map body_of_written written.now)) }
{
    let mut counts = Items::new(alloc);
    for one in written {
        counts.push(declaration_count(alloc, *one)?)?;
    }
    Ok(counts)
}

/// How many declarations a component has.
fn count_of(counts: &[u32], component: Option<Component>) -> u32
    ensures { result ≡ turned.count_of counts.now component }
{
    match component {
        Some(one) => match counts.get(one.body as usize) {
            Some(count) => *count,
            None => 0,
        },
        None => 0,
    }
}

/// How many declarations all components have.
fn count_all(counts: &[u32], components: &Components) -> Result<u32, Memory>
    ensures { IfOk result (λ n. n ≡ turned.counted_to counts.now components.now.all (length components.now.all)) }
{
    let mut all = 0;
    for component in 0..number(components.len())? {
        let more = count_of(counts, components.get(component));
        all = number(all as usize + more as usize)?;
    }
    Ok(all)
}

/// One more than the components of a source have declarations: no range is found through more names of types.
pub fn turns(alloc: Global, spec: &Spec, components: &Components) -> Result<usize, Memory>
    requires { AreComponentsOf (source_of spec.now) components.now }
    ensures { IfOk result (λ n. n ≡ length (source.declarations (source_of spec.now)) + 1) }
{
    let written = written_bodies(alloc, spec)?;
    let counts = declaration_counts(alloc, written.as_slice())?;
    let all = count_all(counts.as_slice(), components)?;
    Ok(all as usize + 1)
}
