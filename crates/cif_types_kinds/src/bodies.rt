//! Checking all expressions of a body against what is asked of them.

ghost use Rattle.std.specs.Prelude.{◌≡◌};
ghost use Rattle.cif_ast.specs.View.{view_item, view_items};
ghost use Rattle.cif_source.specs.Source.{source_item, source_items, automaton_tree};
ghost use Rattle.cif_source.specs.Kinds.{no_kind};
ghost use Rattle.cif_source.specs.Demands.{demands};
ghost use Rattle.cif_scope.specs.Written.{body_of_written, inside_of};
ghost use Rattle.cif_types_kinds.specs.Readings.{IsReading, IsWrittenIn, component_in, received_in};
ghost use Rattle.cif_types_kinds.specs.Met.{Checks};
ghost use Rattle.cif_types_kinds.specs.Faults.{Tells};
ghost use Rattle.cif_types_kinds.specs.Values as values;

use crate::error::KindErr;
use crate::reading::Reading;
use cif_ast::{AutoBody, Item};
use cif_scope::{Inside, Written};
use std::alloc::Global;

impl<'a> Reading<'a> {
    fn ask_item_type(&self, alloc: Global, item: &Item) -> Result<(), KindErr>
        requires { IsReading self.now }
        ensures { Tells result (values.item_told (values.decl_type_told (component_in self.now) (received_in self.now)) (source_item (view_item item.now))) }
    {
        match item {
            Item::Decl(decl) => self.ask_decl_type(alloc, decl),
            Item::Comp(_) | Item::Def(_) | Item::Inst(_) => Ok(()),
        }
    }

    fn ask_item_types(&self, alloc: Global, all: &[Item]) -> Result<(), KindErr>
        requires { IsReading self.now }
        ensures { Tells result (values.decls_told (values.decl_type_told (component_in self.now) (received_in self.now)) (source_items (view_items all.now))) }
    {
        for item in all {
            self.ask_item_type(alloc, item)?;
        }
        Ok(())
    }

    fn ask_item(&self, alloc: Global, item: &Item) -> Result<(), KindErr>
        requires { IsReading self.now }
        ensures { Tells result (values.item_told (values.decl_told (component_in self.now) (received_in self.now)) (source_item (view_item item.now))) }
    {
        match item {
            Item::Decl(decl) => self.ask_decl(alloc, decl),
            Item::Comp(_) | Item::Def(_) | Item::Inst(_) => Ok(()),
        }
    }

    fn ask_items(&self, alloc: Global, all: &[Item]) -> Result<(), KindErr>
        requires { IsReading self.now }
        ensures { Tells result (values.decls_told (values.decl_told (component_in self.now) (received_in self.now)) (source_items (view_items all.now))) }
    {
        for item in all {
            self.ask_item(alloc, item)?;
        }
        Ok(())
    }

    fn ask_group(&self, alloc: Global, items: &[Item]) -> Result<(), KindErr>
        requires { IsReading self.now }
        ensures { Tells result (values.group_told self.now.scopes.now self.now.table.now
            (component_in self.now) (received_in self.now) self.now.body (source_items (view_items items.now))) }
    {
        self.ask_item_types(alloc, items)?;
        self.ask_items(alloc, items)?;
        self.ask_instances(alloc, items)
    }

    fn ask_automaton(&self, alloc: Global, body: &AutoBody) -> Result<(), KindErr>
        requires { IsReading self.now }
        ensures { Tells result (values.automaton_told (component_in self.now) (received_in self.now) (automaton_tree body.now)) }
    {
        self.ask_decl_types(alloc, body.decls.as_slice())?;
        self.ask_decls(alloc, body.decls.as_slice())?;
        self.ask_locations(alloc, body.locs.as_slice())
    }

    fn ask_inside(&self, alloc: Global, inside: Inside<'_>) -> Result<(), KindErr>
        requires { IsReading self.now }
        ensures { Tells result (values.inside_told self.now.scopes.now self.now.table.now
            (component_in self.now) (received_in self.now) self.now.body (inside_of inside.entry)) }
    {
        match inside {
            Inside::Group(items) => self.ask_group(alloc, items),
            Inside::Automaton(body) => self.ask_automaton(alloc, body),
        }
    }

    fn ask_body(&self, alloc: Global, written: Written<'_>) -> Result<(), KindErr>
        requires { IsReading self.now }
        ensures { Tells result (values.body_told self.now.scopes.now self.now.table.now
            (component_in self.now) (received_in self.now) self.now.body (body_of_written written.entry)) }
    {
        self.ask_params(alloc, written.params)?;
        self.ask_inside(alloc, written.inside)
    }

    /// Checks that the expressions of the body, and the operands in them, have the kinds that their positions ask for. No `?`
    /// has a kind there but in the updates of edges.
    pub fn check_values(&self, alloc: Global, written: Written<'_>) -> Result<(), KindErr>
        requires reading { IsReading self.now }
        requires received { received_in self.now ≡ no_kind }
        requires written { IsWrittenIn self.now (body_of_written written) }
        ensures { Checks (component_in self.now) (demands (component_in self.now)) result }
    {
        self.ask_body(alloc, written)
    }
}
