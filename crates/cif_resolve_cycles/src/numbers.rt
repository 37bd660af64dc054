//! All names of all bodies, numbered through.

ghost use Rattle.std.specs.Prelude.{◌≡◌, IfOk};
ghost use Rattle.cif_resolve_cycles.specs.Names as names;

use cif_base::{Items, Memory};
use cif_scope::{Looked, Scopes, number};
use std::alloc::Global;

/// For each body the number of its first name.
pub fn firsts(alloc: Global, scopes: &Scopes) -> Result<Items<u32>, Memory>
    ensures { IfOk result (λ all. all ≡ names.firsts_of scopes.now.table.scopes) }
{
    let mut all = Items::new(alloc);
    let mut count = 0;
    for body in 0..scopes.bodies() {
        all.push(number(count)?)?;
        count += scopes.slots(body) as usize;
    }
    Ok(all)
}

/// The number of the name that was found.
pub fn number_of(firsts: &[u32], found: Looked) -> Result<Option<u32>, Memory>
    ensures { IfOk result (λ n. n ≡ names.number_of firsts.now found) }
{
    let Looked::At(body, slot) = found else {
        return Ok(None);
    };
    match firsts.get(body as usize) {
        Some(first) => Ok(Some(number(*first as usize + slot as usize)?)),
        None => Ok(None),
    }
}

/// Where the name of a number stands.
pub fn place_of(scopes: &Scopes, name: u32) -> Option<u32>
    ensures { result ≡ names.place_of scopes.now.table.scopes name }
{
    let mut slot = name;
    for body in 0..scopes.bodies() {
        let slots = scopes.slots(body);
        if slot < slots {
            return Some(scopes.name(body, slot).at);
        }
        slot -= slots;
    }
    None
}
