//! The bodies that components have. Nothing is asked of the body of a definition that has no instance.

ghost use Rattle.std.specs.Prelude.{◌≡◌, ◌++◌, false, length, map, replicate, Option, IfOk, OnOk};
ghost use Rattle.cif_source.specs.Source.{source_of};
ghost use Rattle.cif_scope.specs.Written.{body_of_written, written_bodies};
ghost use Rattle.cif_inst_constants.specs.Used as used_by;

use cif_ast::Spec;
use cif_base::{Items, Memory};
use cif_inst_components::{Component, Components};
use cif_scope::{Scopes, Written, number, written_bodies};
use std::alloc::Global;

/// A body by its number.
#[derive(Clone, Copy, Drop)]
pub struct Body<'a> {
    pub number: u32,
    pub written: Written<'a>,
}

/// Whether a body is marked.
pub fn is_used(used: &[bool], body: u32) -> bool
    ensures { result ≡ used_by.is_used used.now body }
{
    match used.get(body as usize) {
        Some(mark) => *mark,
        None => false,
    }
}

fn mark(used: &mut Items<bool>, component: Option<Component>)
    ensures { used.new ≡ used_by.mark_at used.old component }
{
    if let Some(one) = component {
        if (one.body as usize) < used.len() {
            used.set(one.body as usize, true);
        }
    }
}

/// For each body whether it is that of a component.
pub fn used_bodies(
    alloc: Global,
    scopes: &Scopes,
    components: &Components,
) -> Result<Items<bool>, Memory>
    ensures { IfOk result (λ used. used ≡ used_by.used_bodies scopes.now components.now) }
{
    let mut used = Items::filled(alloc, false, scopes.bodies() as usize)?;
    for component in 0..number(components.len())? {
        mark(&mut used, components.get(component));
    }
    Ok(used)
}

fn add_marked<'a>(
    used: &[bool],
    written: &[Written<'a>],
    found: &mut Vec<Body<'a>>,
) -> Result<(), Memory>
    ensures { OnOk result (map used_by.numbered_of found.new.items
        ≡ map used_by.numbered_of found.old.items ++ used_by.used_from used.now 0 (map body_of_written written.now)) }
{
    for (body, one) in written.iter().enumerate() {
        let number = number(body)?;
        if is_used(used, number) {
            found.push(Body {
                number,
                written: *one,
            })?;
        }
    }
    Ok(())
}

/// The marked bodies of a source.
pub fn marked_bodies<'a>(
    alloc: Global,
    spec: &'a Spec,
    used: &[bool],
) -> Result<Vec<Body<'a>>, Memory>
    ensures { IfOk result (λ all. map used_by.numbered_of all.items
        ≡ used_by.used_from used.now 0 (written_bodies (source_of spec.now))) }
{
    let written = written_bodies(alloc, spec)?;
    let mut found = Vec::new(alloc);
    add_marked(used, written.as_slice(), &mut found)?;
    Ok(found)
}

/// The bodies that components have.
pub fn component_bodies<'a>(
    alloc: Global,
    spec: &'a Spec,
    scopes: &Scopes,
    components: &Components,
) -> Result<Vec<Body<'a>>, Memory>
    ensures { IfOk result (λ all. map used_by.numbered_of all.items
        ≡ used_by.used_from (used_by.used_bodies scopes.now components.now) 0 (written_bodies (source_of spec.now))) }
{
    let used = used_bodies(alloc, scopes, components)?;
    marked_bodies(alloc, spec, used.as_slice())
}
