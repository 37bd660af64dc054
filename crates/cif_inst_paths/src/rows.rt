//! The components of a source, one row for each, in the order of their numbers.

ghost use Rattle.std.specs.Prelude.{◌≡◌, ◌<◌, map, take, length, slice_get, IfOk, Some};
ghost use Rattle.cif_source.specs.Source.{source_of};
ghost use Rattle.cif_source.specs.Objects.{components_of};
ghost use Rattle.cif_scope.specs.Looks.{names_at};
ghost use Rattle.cif_scope.specs.Scopes.{AreScopesOf};
ghost use Rattle.cif_scope.specs.Written.{body_of_written, inside_of};
ghost use Rattle.cif_scope.specs.declared.scope.ScopeName.{ScopeName};
ghost use Rattle.cif_inst_components.specs.Numbers.{AreComponentsOf};
ghost use Rattle.cif_inst_names.specs.Looking.{component_of};
ghost use Rattle.cif_inst_paths.specs.Rows as listed;
ghost use Rattle.cif_inst_paths.specs.Views.{row_tree};
ghost use Rattle.cif_inst_paths.specs.declared.rows.Row.{Row as RowOf};

use cif_ast::Spec;
use cif_base::{Memory, Text};
use cif_inst_components::{Components, Place};
use cif_scope::{Inside, Scopes, Written, number, written_bodies};
use std::alloc::Global;

/// A component. The prefix is what the paths of all that it declares begin with: the names on the way to it, each with a dot
/// behind it. An instance has what is in the body of its definition.
#[derive(Drop)]
pub struct Row<'a> {
    pub prefix: Text,
    pub inside: Inside<'a>,
}

/// The components of a source, and its bodies as written.
#[derive(Clone, Copy)]
struct Bodies<'a, 'b> {
    spec: &'a Spec,
    scopes: &'b Scopes,
    components: &'b Components,
    written: &'b [Written<'a>],
}

/// The number of the body that a component has.
pub fn body_number(components: &Components, component: u32) -> u32
    ensures { result ≡ listed.body_number components.now.all component }
{
    match components.get(component) {
        Some(one) => one.body,
        None => 0,
    }
}

/// Where a component stands in another.
fn stands_at(components: &Components, component: u32) -> Option<Place>
    ensures { result ≡ listed.stands_at components.now.all component }
{
    let one = components.get(component)?;
    one.stands
}

/// What is in the body of a component.
fn inside_at<'a>(bodies: &Bodies<'a, '_>, component: u32) -> Inside<'a>
    ensures { inside_of result ≡ listed.body_in (map body_of_written bodies.now.written.now) (listed.body_number bodies.now.components.now.all component) }
{
    match bodies
        .written
        .get(body_number(bodies.components, component) as usize)
    {
        Some(one) => one.inside,
        None => Inside::Group(&[]),
    }
}

/// The prefix of what stands under a name of a component.
fn inner_prefix(
    alloc: Global,
    bodies: &Bodies<'_, '_>,
    rows: &[Row],
    stands: Place,
) -> Result<Text, Memory>
    requires row { stands.component < length rows.now }
    requires body { listed.body_number bodies.now.components.now.all stands.component < length bodies.now.scopes.now.table.scopes }
    requires slot { stands.slot < length (names_at bodies.now.scopes.now.table (listed.body_number bodies.now.components.now.all stands.component)) }
    ensures { (r : RowOf) (n : ScopeName) → slice_get rows.now stands.component ≡ Some r →
        slice_get (names_at bodies.now.scopes.now.table (listed.body_number bodies.now.components.now.all stands.component)) stands.slot ≡ Some n →
        IfOk result (λ p. p ≡ listed.inner r.prefix n.name) }
{
    let body = body_number(bodies.components, stands.component);
    let mut prefix = rows[stands.component as usize].prefix.copy(alloc)?;
    let name = bodies.scopes.name(body, stands.slot);
    prefix.push_slice(name.text.as_slice())?;
    prefix.push(b'.')?;
    Ok(prefix)
}

/// The prefix of a component, from the rows of the components before it.
fn prefix_at(
    alloc: Global,
    bodies: &Bodies<'_, '_>,
    rows: &[Row],
    component: u32,
) -> Result<Text, Memory>
    requires bodies { listed.AreBodiesOf (source_of bodies.now.spec.now) bodies.now }
    requires component { component < length (components_of (source_of bodies.now.spec.now)) }
    requires rows { map row_tree rows.now ≡ map listed.row_for (take component (components_of (source_of bodies.now.spec.now))) }
    ensures { IfOk result (λ p. p ≡ listed.prefix_of (component_of (source_of bodies.now.spec.now) component)) }
{
    match stands_at(bodies.components, component) {
        Some(stands) => inner_prefix(alloc, bodies, rows, stands),
        None => Ok(Text::new(alloc)),
    }
}

/// The components of a source with what their paths begin with.
pub fn all_rows<'a>(
    alloc: Global,
    spec: &'a Spec,
    scopes: &Scopes,
    components: &Components,
) -> Result<Vec<Row<'a>>, Memory>
    requires scopes { AreScopesOf (source_of spec.now) scopes.now }
    requires components { AreComponentsOf (source_of spec.now) components.now }
    ensures { IfOk result (λ all. map row_tree all.items ≡ listed.rows_of (source_of spec.now)) }
{
    let written = written_bodies(alloc, spec)?;
    let bodies = Bodies {
        spec,
        scopes,
        components,
        written: written.as_slice(),
    };
    let mut rows = Vec::new(alloc);
    for component in 0..number(components.len())? {
        let prefix = prefix_at(alloc, &bodies, rows.as_slice(), component)?;
        let inside = inside_at(&bodies, component);
        rows.push(Row { prefix, inside })?;
    }
    Ok(rows)
}
