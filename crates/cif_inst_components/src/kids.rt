//! What stands in a body: the components that are written in it, and its instances.

ghost use Rattle.std.specs.Prelude.{◌≡◌, ◌<◌, length, IfOk};
ghost use Rattle.std.specs.Option.{option_to_list};
ghost use Rattle.cif_inst_components.specs.Kids as kids;

use cif_base::{Items, Memory};
use cif_scope::{Scopes, What};
use std::alloc::Global;

/// A component that stands in a body under the name of a slot, by its own body: for an instance that of its definition.
#[derive(Clone, Copy, Debug, Drop)]
pub struct Kid {
    pub slot: u32,
    pub body: u32,
}

fn kid_body(scopes: &Scopes, body: u32, what: Option<What>) -> Option<u32>
    ensures { result ≡ kids.kid_body scopes.now body what }
{
    match what? {
        What::Component(inner) => Some(inner),
        What::Instance(instance) => scopes.definition(body, instance),
        What::Declared(_)
        | What::Literal(_)
        | What::Location(_)
        | What::Definition(_, _)
        | What::Parameter(_) => None,
    }
}

/// Those of a body, in text order.
fn kids_of(alloc: Global, scopes: &Scopes, body: u32) -> Result<Items<Kid>, Memory>
    requires { body < length scopes.now.table.scopes }
    ensures { IfOk result (λ found. found ≡ kids.kids_of scopes.now body) }
{
    let mut found = Items::new(alloc);
    for slot in 0..scopes.slots(body) {
        if let Some(inner) = kid_body(scopes, body, scopes.what(body, slot)) {
            found.push(Kid { slot, body: inner })?;
        }
    }
    Ok(found)
}

/// Those of each body.
pub fn all_kids(alloc: Global, scopes: &Scopes) -> Result<Items<Items<Kid>>, Memory>
    ensures { IfOk result (λ all. all ≡ kids.all_kids scopes.now) }
{
    let mut all = Items::new(alloc);
    for body in 0..scopes.bodies() {
        all.push(kids_of(alloc, scopes, body)?)?;
    }
    Ok(all)
}
