//! The constants of the components of a source, as a graph.

ghost use Rattle.std.specs.Prelude.{◌≡◌, map, IfOk};
ghost use Rattle.cif_source.specs.Source.{source_of};
ghost use Rattle.cif_scope.specs.Written.{written_bodies};
ghost use Rattle.cif_inst_constants.specs.Nodes.{node_of, nodes_in, node_needs};
ghost use Rattle.cif_inst_constants.specs.Numbers.{numbers_of};
ghost use Rattle.cif_inst_constants.specs.Used.{used_bodies, used_from};

use crate::nodes::{Constant, constants, needs_of};
use crate::numbering::constant_numbers;
use crate::using::{marked_bodies, used_bodies};
use cif_ast::Spec;
use cif_base::{Items, Memory};
use cif_inst_components::Components;
use cif_scope::Scopes;
use std::alloc::Global;

/// The constants of the bodies that components have, by their numbers: one for each name of each body, and for each constant
/// those that it needs.
#[derive(Drop)]
pub struct Graph<'a> {
    pub numbers: Items<Items<u32>>,
    pub constants: Vec<Constant<'a>>,
    pub needs: Items<Items<u32>>,
}

/// The constants of the components of a source.
pub fn constant_graph<'a>(
    alloc: Global,
    spec: &'a Spec,
    scopes: &Scopes,
    components: &Components,
) -> Result<Graph<'a>, Memory>
    ensures numbers { IfOk result (λ g. g.numbers ≡ numbers_of scopes.now (used_bodies scopes.now components.now)) }
    ensures constants { IfOk result (λ g. map node_of g.constants.items
        ≡ nodes_in (used_from (used_bodies scopes.now components.now) 0 (written_bodies (source_of spec.now)))) }
    ensures needs { IfOk result (λ g. g.needs ≡ map (node_needs scopes.now g.numbers) (map node_of g.constants.items)) }
{
    let used = used_bodies(alloc, scopes, components)?;
    let numbers = constant_numbers(alloc, scopes, used.as_slice())?;
    let bodies = marked_bodies(alloc, spec, used.as_slice())?;
    let constants = constants(alloc, bodies.as_slice())?;
    let needs = needs_of(alloc, scopes, numbers.as_slice(), constants.as_slice())?;
    Ok(Graph {
        numbers,
        constants,
        needs,
    })
}
