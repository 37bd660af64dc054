//! The slots of all bodies, and the types that have names.

ghost use Rattle.std.specs.Prelude.{◌≡◌, ◌+◌, ◌++◌, ◌∷◌, [], map, flat_map, length, replicate, IfOk, OnOk};
ghost use Rattle.cif_ast.specs.View.{view_item, view_items};
ghost use Rattle.cif_source.specs.Source.{type_tree, decl_tree, location_tree, automaton_tree, param_tree, source_item, source_items};
ghost use Rattle.cif_scope.specs.Written.{body_of_written, inside_of};
ghost use Rattle.cif_types_table.specs.Layouts as layout;

use crate::layout::{Layout, NamedType, Slot};
use cif_ast::{AutoBody, Decl, Ident, Item, Loc, Param, TypeUse};
use cif_base::{Items, Memory};
use cif_scope::{Inside, Written, number};
use std::alloc::Global;

/// Adds the slots of literals.
fn add_literals<'a>(own: u32, count: usize, slots: &mut Items<Slot<'a>>) -> Result<(), Memory>
    ensures { OnOk result (map layout.slot_tree slots.new ≡ map layout.slot_tree slots.old ++ replicate count (layout.literal_slot own)) }
{
    for _literal in 0..count {
        slots.push(Slot::Literal(own))?;
    }
    Ok(())
}

/// Adds the name of a type as another name for a type of a body.
fn add_synonym<'a>(
    body: u32,
    ty: &'a TypeUse,
    types: &mut Vec<NamedType<'a>>,
    slots: &mut Items<Slot<'a>>,
) -> Result<(), Memory>
    ensures types { OnOk result (map layout.named_tree types.new.items ≡ map layout.named_tree types.old.items ++ layout.synonym body (type_tree ty.now) ∷ []) }
    ensures count { OnOk result (length types.new.items ≡ length types.old.items + 1) }
    ensures slots { OnOk result (map layout.slot_tree slots.new ≡ map layout.slot_tree slots.old ++ layout.type_slot (length types.old.items) ∷ []) }
{
    let own = number(types.len())?;
    types.push(NamedType::Synonym { body, ty })?;
    slots.push(Slot::Type(own))
}

/// Adds an enumeration, with its literals.
fn add_enumeration<'a>(
    literals: &'a [Ident],
    types: &mut Vec<NamedType<'a>>,
    slots: &mut Items<Slot<'a>>,
) -> Result<(), Memory>
    ensures types { OnOk result (map layout.named_tree types.new.items ≡ map layout.named_tree types.old.items ++ layout.enumeration literals.now ∷ []) }
    ensures count { OnOk result (length types.new.items ≡ length types.old.items + 1) }
    ensures slots { OnOk result (map layout.slot_tree slots.new
        ≡ map layout.slot_tree slots.old ++ layout.type_slot (length types.old.items) ∷ replicate (length literals.now) (layout.literal_slot (length types.old.items))) }
{
    let own = number(types.len())?;
    types.push(NamedType::Enumeration { literals })?;
    slots.push(Slot::Type(own))?;
    add_literals(own, literals.len(), slots)
}

/// Adds the slots of a declaration of a body.
fn add_decl<'a>(
    body: u32,
    decl: &'a Decl,
    types: &mut Vec<NamedType<'a>>,
    slots: &mut Items<Slot<'a>>,
) -> Result<(), Memory>
    ensures types { OnOk result (map layout.named_tree types.new.items ≡ map layout.named_tree types.old.items ++ layout.decl_types body (decl_tree decl.now)) }
    ensures count { OnOk result (length types.new.items ≡ length types.old.items + layout.decl_count (decl_tree decl.now)) }
    ensures slots { OnOk result (map layout.slot_tree slots.new
        ≡ map layout.slot_tree slots.old ++ layout.decl_slots (length types.old.items) (decl_tree decl.now)) }
{
    match decl {
        Decl::TypeName { name: _, ty } => add_synonym(body, ty, types, slots),
        Decl::Enum { name: _, literals } => add_enumeration(literals.as_slice(), types, slots),
        Decl::Const { ty, .. }
        | Decl::Alg { ty, .. }
        | Decl::Input { ty, .. }
        | Decl::Disc { ty, .. } => slots.push(Slot::Value(ty)),
        Decl::Event { chan, .. } => slots.push(Slot::Event(chan)),
        Decl::Equation { .. } | Decl::Inv(_) | Decl::Marked(_) => Ok(()),
    }
}

fn add_decls<'a>(
    body: u32,
    decls: &'a [Decl],
    types: &mut Vec<NamedType<'a>>,
    slots: &mut Items<Slot<'a>>,
) -> Result<(), Memory>
    ensures types { OnOk result (map layout.named_tree types.new.items ≡ map layout.named_tree types.old.items ++ layout.decls_types body (map decl_tree decls.now)) }
    ensures count { OnOk result (length types.new.items ≡ length types.old.items + layout.decls_count (map decl_tree decls.now)) }
    ensures slots { OnOk result (map layout.slot_tree slots.new
        ≡ map layout.slot_tree slots.old ++ layout.decls_slots (length types.old.items) (map decl_tree decls.now)) }
{
    for decl in decls {
        add_decl(body, decl, types, slots)?;
    }
    Ok(())
}

fn add_locations<'a>(locs: &[Loc], slots: &mut Items<Slot<'a>>) -> Result<(), Memory>
    ensures { OnOk result (map layout.slot_tree slots.new ≡ map layout.slot_tree slots.old ++ flat_map layout.location_slots (map location_tree locs.now)) }
{
    for loc in locs {
        if loc.name.is_some() {
            slots.push(Slot::Location)?;
        }
    }
    Ok(())
}

fn add_item<'a>(
    body: u32,
    item: &'a Item,
    types: &mut Vec<NamedType<'a>>,
    slots: &mut Items<Slot<'a>>,
) -> Result<(), Memory>
    ensures types { OnOk result (map layout.named_tree types.new.items
        ≡ map layout.named_tree types.old.items ++ layout.item_types body (source_item (view_item item.now))) }
    ensures count { OnOk result (length types.new.items ≡ length types.old.items + layout.item_count (source_item (view_item item.now))) }
    ensures slots { OnOk result (map layout.slot_tree slots.new
        ≡ map layout.slot_tree slots.old ++ layout.item_slots (length types.old.items) (source_item (view_item item.now))) }
{
    match item {
        Item::Decl(decl) => add_decl(body, decl, types, slots),
        Item::Comp(_) | Item::Def(_) | Item::Inst(_) => slots.push(Slot::Other),
    }
}

fn add_items<'a>(
    body: u32,
    items: &'a [Item],
    types: &mut Vec<NamedType<'a>>,
    slots: &mut Items<Slot<'a>>,
) -> Result<(), Memory>
    ensures types { OnOk result (map layout.named_tree types.new.items
        ≡ map layout.named_tree types.old.items ++ layout.items_types body (source_items (view_items items.now))) }
    ensures count { OnOk result (length types.new.items ≡ length types.old.items + layout.items_count (source_items (view_items items.now))) }
    ensures slots { OnOk result (map layout.slot_tree slots.new
        ≡ map layout.slot_tree slots.old ++ layout.items_slots (length types.old.items) (source_items (view_items items.now))) }
{
    for item in items {
        add_item(body, item, types, slots)?;
    }
    Ok(())
}

fn param_slot<'a>(param: &'a Param) -> Slot<'a>
    ensures { layout.slot_tree result ≡ layout.param_slot (param_tree param.now) }
{
    match param {
        Param::Event { chan, .. } => Slot::Event(chan),
        Param::Alg { ty, name: _ } => Slot::Value(ty),
        Param::Location { .. } => Slot::Location,
    }
}

fn param_slots<'a>(alloc: Global, params: &'a [Param]) -> Result<Items<Slot<'a>>, Memory>
    ensures { IfOk result (λ slots. map layout.slot_tree slots ≡ map layout.param_slot (map param_tree params.now)) }
{
    let mut slots = Items::new(alloc);
    for param in params {
        slots.push(param_slot(param))?;
    }
    Ok(slots)
}

/// The slots of a body.
fn body_slots<'a>(
    alloc: Global,
    body: u32,
    one: Written<'a>,
    types: &mut Vec<NamedType<'a>>,
) -> Result<Items<Slot<'a>>, Memory>
    ensures types { OnOk result (map layout.named_tree types.new.items
        ≡ map layout.named_tree types.old.items ++ layout.body_types body (inside_of one.entry.inside)) }
    ensures count { OnOk result (length types.new.items ≡ length types.old.items + layout.body_count (inside_of one.entry.inside)) }
    ensures slots { IfOk result (λ slots. map layout.slot_tree slots ≡ layout.written_slots (length types.old.items) (body_of_written one.entry)) }
{
    let mut slots = param_slots(alloc, one.params)?;
    match one.inside {
        Inside::Group(items) => add_items(body, items, types, &mut slots)?,
        Inside::Automaton(automaton) => {
            add_decls(body, automaton.decls.as_slice(), types, &mut slots)?;
            add_locations(automaton.locs.as_slice(), &mut slots)?;
        }
    }
    Ok(slots)
}

/// What these bodies declare.
pub fn layout<'a>(alloc: Global, written: &[Written<'a>]) -> Result<Layout<'a>, Memory>
    ensures types { IfOk result (λ all. map layout.named_tree all.types.items ≡ layout.all_types 0 (map body_of_written written.now)) }
    ensures slots { IfOk result (λ all. map (map layout.slot_tree) all.slots ≡ layout.all_slots 0 (map body_of_written written.now)) }
{
    let mut types = Vec::new(alloc);
    let mut slots = Items::new(alloc);
    for (body, one) in written.iter().enumerate() {
        slots.push(body_slots(alloc, number(body)?, *one, &mut types)?)?;
    }
    Ok(Layout { types, slots })
}
