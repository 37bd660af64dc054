//! The bodies of a source as they are written, as references into the tree.

ghost use Rattle.std.specs.Prelude.{◌≡◌, ◌++◌, ◌∷◌, map, OnOk, IfOk};
ghost use Rattle.cif_ast.specs.View.{view_item, view_items, view_body};
ghost use Rattle.cif_source.specs.Source.{param_tree, source_item, source_items, source_body, source_of};
ghost use Rattle.cif_scope.specs.Written as bodies;

use cif_ast::{AutoBody, Body, Item, Param, Spec};
use cif_base::Memory;
use std::alloc::Global;

/// What is in a body.
#[derive(Clone, Copy, Drop)]
pub enum Inside<'a> {
    Group(&'a [Item]),
    Automaton(&'a AutoBody),
}

/// A body with the parameters of its definition.
#[derive(Clone, Copy, Drop)]
pub struct Written<'a> {
    pub params: &'a [Param],
    pub inside: Inside<'a>,
}

#[cycle(written)]
fn add_items<'a>(items: &'a [Item], found: &mut Vec<Written<'a>>) -> Result<(), Memory>
    ensures { OnOk result (map bodies.body_of_written found.new.items
        ≡ map bodies.body_of_written found.old.items ++ bodies.written_in (source_items (view_items items.now))) }
{
    for item in items {
        add_item(item, found)?;
    }
    Ok(())
}

#[cycle(written)]
fn add_item<'a>(item: &'a Item, found: &mut Vec<Written<'a>>) -> Result<(), Memory>
    ensures { OnOk result (map bodies.body_of_written found.new.items
        ≡ map bodies.body_of_written found.old.items ++ bodies.written_at (source_item (view_item item.now))) }
{
    match item {
        Item::Decl(_) | Item::Inst(_) => Ok(()),
        Item::Comp(comp) => add_body(&comp.body, &[], found),
        Item::Def(def) => add_body(&def.body, def.params.as_slice(), found),
    }
}

/// Adds a body and those in it.
#[cycle(written)]
fn add_body<'a>(
    body: &'a Body,
    params: &'a [Param],
    found: &mut Vec<Written<'a>>,
) -> Result<(), Memory>
    ensures { let b = source_body (view_body body.now) in
        OnOk result (map bodies.body_of_written found.new.items
        ≡ map bodies.body_of_written found.old.items ++ bodies.written_body (map param_tree params.now) b ∷ bodies.written_under b) }
{
    match body {
        Body::Group(items) => {
            let inside = Inside::Group(items.as_slice());
            found.push(Written { params, inside })?;
            add_items(items.as_slice(), found)
        }
        Body::Auto(body) => {
            let inside = Inside::Automaton(body);
            Ok(found.push(Written { params, inside })?)
        }
    }
}

/// The bodies of a source in text order, those of definitions too.
pub fn written_bodies<'a>(alloc: Global, spec: &'a Spec) -> Result<Vec<Written<'a>>, Memory>
    ensures { IfOk result (λ all. map bodies.body_of_written all.items ≡ bodies.written_bodies (source_of spec.now)) }
{
    let mut found = Vec::new(alloc);
    let inside = Inside::Group(spec.items.as_slice());
    found.push(Written {
        params: &[],
        inside,
    })?;
    add_items(spec.items.as_slice(), &mut found)?;
    Ok(found)
}
