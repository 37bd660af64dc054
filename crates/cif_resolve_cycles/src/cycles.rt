//! Names that reach themselves.

ghost use Rattle.std.specs.Prelude.{IfOk};
ghost use Rattle.cif_source.specs.Source.{source_of};
ghost use Rattle.cif_source.specs.Scoping.{DefinitionCycleDue};
ghost use Rattle.cif_order.specs.Graph.{AreInside};
ghost use Rattle.cif_scope.specs.Scopes.{AreNumbered};
ghost use Rattle.cif_resolve_cycles.specs.Answers.{IsOneOf, IsCyclicNode, DefinitionCycle, TypeCycle};

use crate::bodies::body_graph;
use crate::needs::name_graph;
use crate::numbers::place_of;
use crate::places::{definition_places, nearest};
use cif_ast::Spec;
use cif_base::{Items, Memory};
use cif_order::{OrderErr, order};
use cif_scope::{Scopes, number};
use std::alloc::Global;

/// A node that reaches itself, if there is one.
fn cyclic_node(alloc: Global, needs: &[Items<u32>]) -> Result<Option<u32>, Memory>
    requires { AreInside needs.now }
    ensures { IfOk result (λ node. IsCyclicNode needs.now node) }
{
    number(needs.len())?;
    match order(alloc, needs) {
        Ok(_order) => Ok(None),
        Err(OrderErr::Cycle { node }) => Ok(Some(node)),
        Err(OrderErr::Memory) => Err(Memory),
    }
}

/// Where the name of a definition stands that reaches itself.
fn cyclic_definition(alloc: Global, spec: &Spec, scopes: &Scopes) -> Result<Option<u32>, Memory>
    requires { AreNumbered (source_of spec.now) scopes.now }
    ensures { IfOk result (λ at. IsOneOf (DefinitionCycle (source_of spec.now)) at) }
{
    let graph = body_graph(alloc, scopes)?;
    match cyclic_node(alloc, graph.as_slice())? {
        Some(body) => {
            let places = definition_places(alloc, spec)?;
            Ok(nearest(scopes, places.as_slice(), body))
        }
        None => Ok(None),
    }
}

/// Where the name of a type or constant stands that reaches itself.
fn cyclic_type(alloc: Global, spec: &Spec, scopes: &Scopes) -> Result<Option<u32>, Memory>
    requires { AreNumbered (source_of spec.now) scopes.now }
    ensures { IfOk result (λ at. IsOneOf (TypeCycle (source_of spec.now)) at) }
{
    let graph = name_graph(alloc, spec, scopes)?;
    match cyclic_node(alloc, graph.as_slice())? {
        Some(name) => Ok(place_of(scopes, name)),
        None => Ok(None),
    }
}

/// Where the declared name of a definition, type or constant stands that reaches itself, or `None` where none does.
pub fn cyclic_name(alloc: Global, spec: &Spec, scopes: &Scopes) -> Result<Option<u32>, Memory>
    requires { AreNumbered (source_of spec.now) scopes.now }
    ensures { IfOk result (λ at. IsOneOf (DefinitionCycleDue (source_of spec.now)) at) }
{
    match cyclic_definition(alloc, spec, scopes)? {
        Some(at) => Ok(Some(at)),
        None => cyclic_type(alloc, spec, scopes),
    }
}
