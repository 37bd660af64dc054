//! Whether instances have as many arguments as their definitions have parameters.

ghost use Rattle.std.specs.Prelude.{◌≡◌, map, option_map, IfOk};
ghost use Rattle.cif_ast.specs.View.{view_item, view_items};
ghost use Rattle.cif_source.specs.Source.{instance_tree, source_item, source_items};
ghost use Rattle.cif_scope.specs.Drafts as drafts;
ghost use Rattle.cif_scope.specs.Written.{body_of_written};
ghost use Rattle.cif_resolve.specs.Bodies as bodies;

use cif_ast::{Inst, Item};
use cif_base::Memory;
use cif_scope::{ScopeErr, Scopes, Written, number};

/// The body of the definition of an instance.
pub fn definition_of<'a>(
    scopes: &Scopes,
    written: &[Written<'a>],
    body: u32,
    instance: u32,
) -> Option<Written<'a>>
    ensures { option_map body_of_written result ≡ bodies.definition_of scopes.now (map body_of_written written.now) body instance }
{
    let definition = scopes.definition(body, instance)?;
    let one = written.get(definition as usize)?;
    Some(*one)
}

/// The fault of an instance with another number of arguments than its definition has parameters.
fn count_fault(inst: &Inst, definition: Option<Written<'_>>) -> Option<ScopeErr>
    ensures { result ≡ bodies.count_fault (instance_tree inst.now) (option_map body_of_written definition.entry) }
{
    match definition {
        Some(one) => {
            if inst.args.len() == one.params.len() {
                None
            } else {
                Some(ScopeErr::WrongKind { at: inst.name.at })
            }
        }
        None => None,
    }
}

fn item_fault(
    scopes: &Scopes,
    written: &[Written<'_>],
    body: u32,
    instance: u32,
    item: &Item,
) -> Option<ScopeErr>
    ensures { result ≡ bodies.count_at scopes.now (map body_of_written written.now) body instance (source_item (view_item item.now)) }
{
    match item {
        Item::Inst(inst) => count_fault(inst, definition_of(scopes, written, body, instance)),
        Item::Decl(_) | Item::Comp(_) | Item::Def(_) => None,
    }
}

/// The number of the next instance after an item.
pub fn next_instance(instance: u32, item: &Item) -> Result<u32, Memory>
    ensures { IfOk result (λ n. n ≡ drafts.next_instance instance (source_item (view_item item.now))) }
{
    match item {
        Item::Inst(_) => number(instance as usize + 1),
        Item::Decl(_) | Item::Comp(_) | Item::Def(_) => Ok(instance),
    }
}

/// The first instance of a body with another number of arguments than its definition has parameters.
pub fn first_count(
    scopes: &Scopes,
    written: &[Written<'_>],
    body: u32,
    items: &[Item],
) -> Result<Option<ScopeErr>, Memory>
    ensures { IfOk result (λ fault. fault
        ≡ bodies.counts_in scopes.now (map body_of_written written.now) body 0 (source_items (view_items items.now))) }
{
    let mut instance = 0;
    for item in items {
        match item_fault(scopes, written, body, instance, item) {
            Some(fault) => return Ok(Some(fault)),
            None => {}
        }
        instance = next_instance(instance, item)?;
    }
    Ok(None)
}
