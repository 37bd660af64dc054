//! The graph of bodies: what a body needs is instantiated wherever the body is.

ghost use Rattle.std.specs.Prelude.{◌≡◌, ◌<◌, length, IfOk};
ghost use Rattle.cif_resolve_cycles.specs.Bodies as graph;

use cif_base::{Items, Memory};
use cif_scope::{Scopes, What};
use std::alloc::Global;

/// The body that a name of a body needs: that of a component, or that of an instance's definition.
fn need_of(scopes: &Scopes, body: u32, what: Option<What>) -> Option<u32>
    ensures { result ≡ graph.need_of scopes.now body what }
{
    match what? {
        What::Component(inner) => Some(inner),
        What::Instance(instance) => scopes.definition(body, instance),
        What::Declared(_)
        | What::Literal(_)
        | What::Location(_)
        | What::Definition(_, _)
        | What::Parameter(_) => None,
    }
}

fn body_needs(alloc: Global, scopes: &Scopes, body: u32) -> Result<Items<u32>, Memory>
    requires { body < length scopes.now.table.scopes }
    ensures { IfOk result (λ needs. needs ≡ graph.body_needs scopes.now body) }
{
    let mut needs = Items::new(alloc);
    for slot in 0..scopes.slots(body) {
        if let Some(need) = need_of(scopes, body, scopes.what(body, slot)) {
            needs.push(need)?;
        }
    }
    Ok(needs)
}

/// For each body those that it needs: the components in it and the definitions of its instances. Definitions in it are no needs.
pub fn body_graph(alloc: Global, scopes: &Scopes) -> Result<Items<Items<u32>>, Memory>
    ensures { IfOk result (λ all. all ≡ graph.body_graph scopes.now) }
{
    let mut all = Items::new(alloc);
    for body in 0..scopes.bodies() {
        all.push(body_needs(alloc, scopes, body)?)?;
    }
    Ok(all)
}
