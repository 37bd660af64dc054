//! The events of all components, with their channels (CIF 3 language reference, "Events", "Channels").

ghost use Rattle.std.specs.Prelude.{◌≡◌, ◌++◌, map, IfOk, OnOk};
ghost use Rattle.cif_ast.specs.View.{view_item, view_items};
ghost use Rattle.cif_source.specs.Source.{decl_tree, source_item, source_items};
ghost use Rattle.cif_scope.specs.Written.{inside_of};
ghost use Rattle.cif_inst_model.specs.Types.{net_channel};
ghost use Rattle.cif_net.specs.View.{chan_of, event_tree};
ghost use Rattle.cif_inst.specs.Events as events;
ghost use Rattle.cif_inst_paths.specs.Rows.{rows_of};
ghost use Rattle.cif_inst.specs.Typing as of_types;
ghost use Rattle.cif_inst_paths.specs.Views.{row_tree};
ghost use Rattle.cif_inst.specs.Views.{event_datum, class_for};

use crate::typing::Typing;
use cif_ast::{Chan, Decl, Ident, Item};
use cif_base::{Items, Memory, Text};
use cif_inst_paths::{Row, body_number};
use cif_inst_types::type_of;
use cif_net::{Class, Event, NetChan};
use cif_scope::{Inside, number};
use std::alloc::Global;

/// An event that a component declares: what its path begins with, its class, its channel and its name.
#[derive(Clone, Copy, Drop)]
pub struct EventDatum<'a> {
    pub component: u32,
    pub prefix: &'a Text,
    pub class: cif_ast::Class,
    pub chan: &'a Chan,
    pub name: &'a Ident,
}

// ---- those that components declare

/// Adds the event that a declaration of a component declares, if it does.
fn add_decl<'a>(
    component: u32,
    prefix: &'a Text,
    decl: &'a Decl,
    all: &mut Vec<EventDatum<'a>>,
) -> Result<(), Memory>
    ensures { OnOk result (map event_datum all.new.items ≡ map event_datum all.old.items ++ events.decl_events component prefix.now (decl_tree decl.now)) }
{
    match decl {
        Decl::Event { class, chan, name } => Ok(all.push(EventDatum {
            component,
            prefix,
            class: *class,
            chan,
            name,
        })?),
        Decl::TypeName { .. }
        | Decl::Enum { .. }
        | Decl::Const { .. }
        | Decl::Alg { .. }
        | Decl::Input { .. }
        | Decl::Disc { .. }
        | Decl::Equation { .. }
        | Decl::Inv(_)
        | Decl::Marked(_) => Ok(()),
    }
}

fn add_decls<'a>(
    component: u32,
    prefix: &'a Text,
    decls: &'a [Decl],
    all: &mut Vec<EventDatum<'a>>,
) -> Result<(), Memory>
    ensures { OnOk result (map event_datum all.new.items ≡ map event_datum all.old.items ++ events.decls_events component prefix.now (map decl_tree decls.now)) }
{
    for decl in decls {
        add_decl(component, prefix, decl, all)?;
    }
    Ok(())
}

fn add_item<'a>(
    component: u32,
    prefix: &'a Text,
    item: &'a Item,
    all: &mut Vec<EventDatum<'a>>,
) -> Result<(), Memory>
    ensures { OnOk result (map event_datum all.new.items ≡ map event_datum all.old.items ++ events.item_events component prefix.now (source_item (view_item item.now))) }
{
    match item {
        Item::Decl(decl) => add_decl(component, prefix, decl, all),
        Item::Comp(_) | Item::Def(_) | Item::Inst(_) => Ok(()),
    }
}

fn add_items<'a>(
    component: u32,
    prefix: &'a Text,
    items: &'a [Item],
    all: &mut Vec<EventDatum<'a>>,
) -> Result<(), Memory>
    ensures { OnOk result (map event_datum all.new.items ≡ map event_datum all.old.items ++ events.items_events component prefix.now (source_items (view_items items.now))) }
{
    for item in items {
        add_item(component, prefix, item, all)?;
    }
    Ok(())
}

/// Adds the events that a component declares.
fn add_row<'a>(
    component: u32,
    row: &'a Row<'a>,
    all: &mut Vec<EventDatum<'a>>,
) -> Result<(), Memory>
    ensures { OnOk result (map event_datum all.new.items ≡ map event_datum all.old.items ++ events.body_events component row.now.prefix (inside_of row.now.inside)) }
{
    match row.inside {
        Inside::Group(items) => add_items(component, &row.prefix, items, all),
        Inside::Automaton(automaton) => {
            let decls = automaton.decls.as_slice();
            add_decls(component, &row.prefix, decls, all)
        }
    }
}

// ---- those of the net

fn net_class(class: cif_ast::Class) -> Class
    ensures { result ≡ class_for class }
{
    match class {
        cif_ast::Class::Plain => Class::Plain,
        cif_ast::Class::Con => Class::Con,
        cif_ast::Class::Unc => Class::Unc,
    }
}

/// The channel that an event is, if it is one.
fn net_chan(alloc: Global, typing: &Typing, found: &EventDatum) -> Result<NetChan, Memory>
    requires { events.StandsIn typing.now (event_datum found.now) }
    ensures { let e = event_datum found.now in IfOk result (λ x. chan_of x ≡ net_channel (of_types.typed_component typing.now e.component) e.chan) }
{
    match found.chan {
        Chan::No => Ok(NetChan::No),
        Chan::Void => Ok(NetChan::Void),
        Chan::Of(ty) => {
            let body = body_number(typing.looking.components, found.component);
            let made = type_of(alloc, typing.types, typing.turns, body, ty)?;
            Ok(NetChan::Of(made.ty))
        }
    }
}

fn event(alloc: Global, typing: &Typing, found: &EventDatum) -> Result<Event, Memory>
    requires { events.StandsIn typing.now (event_datum found.now) }
    ensures { IfOk result (λ e. event_tree e ≡ events.made_event (of_types.typed_source typing.now) (event_datum found.now)) }
{
    let mut path = found.prefix.copy(alloc)?;
    path.push_slice(found.name.text.as_slice())?;
    let chan = net_chan(alloc, typing, found)?;
    Ok(Event {
        path,
        class: net_class(found.class),
        chan,
    })
}

fn made_events(alloc: Global, typing: &Typing, found: &[EventDatum]) -> Result<Items<Event>, Memory>
    requires { events.StandAll typing.now (map event_datum found.now) }
    ensures { IfOk result (λ all. map event_tree all ≡ map (events.made_event (of_types.typed_source typing.now)) (map event_datum found.now)) }
{
    let mut all = Items::new(alloc);
    for one in found {
        all.push(event(alloc, typing, one)?)?;
    }
    Ok(all)
}

/// The events of these components, in the order of their numbers.
pub(crate) fn all_events(
    alloc: Global,
    typing: &Typing,
    rows: &[Row],
) -> Result<Items<Event>, Memory>
    requires types { of_types.AreTypesOf typing.now }
    requires rows { map row_tree rows.now ≡ rows_of (of_types.typed_source typing.now) }
    ensures { IfOk result (λ all. map event_tree all ≡ events.all_events (of_types.typed_source typing.now) (map row_tree rows.now)) }
{
    let mut found = Vec::new(alloc);
    for (place, row) in rows.iter().enumerate() {
        add_row(number(place)?, row, &mut found)?;
    }
    made_events(alloc, typing, found.as_slice())
}
