//! Reading the arguments of instances.

ghost use Rattle.std.specs.Prelude.{◌≡◌, map, IfOk};
ghost use Rattle.cif_ast.specs.View.{view, view_item, view_items};
ghost use Rattle.cif_source.specs.Source.{instance_tree, source_item, source_items};
ghost use Rattle.cif_scope.specs.Drafts.{next_instance};
ghost use Rattle.cif_types_kinds.specs.Tables.{kind_for};
ghost use Rattle.cif_types_kinds.specs.Readings.{IsReading, component_in, lists_in, received_in};
ghost use Rattle.cif_types_kinds.specs.Faults.{Tells};
ghost use Rattle.cif_types_kinds.specs.Values as values;

use crate::error::KindErr;
use crate::kind::Kind;
use crate::reading::Reading;
use cif_ast::{Expr, Inst, Item};
use cif_scope::{ParamSort, What, number};
use std::alloc::Global;

impl<'a> Reading<'a> {
    /// Reads an argument, and asks that of an algebraic parameter for the parameter's kind.
    fn ask_argument(
        &self,
        alloc: Global,
        asks: Kind,
        what: Option<What>,
        value: &Expr,
    ) -> Result<(), KindErr>
        requires { IsReading self.now }
        ensures { Tells result (values.argument_told (component_in self.now) (received_in self.now) (kind_for (lists_in self.now) asks) what (view value.now)) }
    {
        match what {
            Some(What::Parameter(ParamSort::Algebraic)) => {
                self.ask(alloc, asks, value)?;
                Ok(())
            }
            Some(What::Parameter(ParamSort::Event | ParamSort::Location)) => {
                self.read(alloc, value)?;
                Ok(())
            }
            _ => Ok(()),
        }
    }

    /// Reads the arguments of an instance of a definition, by the number of its body.
    fn ask_arguments(&self, alloc: Global, definition: u32, all: &[Expr]) -> Result<(), KindErr>
        requires { IsReading self.now }
        ensures { Tells result (values.arguments_told self.now.scopes.now self.now.table.now
            (component_in self.now) (received_in self.now) definition 0 (map view all.now)) }
    {
        for (place, value) in all.iter().enumerate() {
            let slot = number(place)?;
            let asks = self.table.kind(definition, slot);
            self.ask_argument(alloc, asks, self.scopes.what(definition, slot), value)?;
        }
        Ok(())
    }

    fn ask_instance(
        &self,
        alloc: Global,
        definition: Option<u32>,
        instance: &Inst,
    ) -> Result<(), KindErr>
        requires { IsReading self.now }
        ensures { Tells result (values.instance_told self.now.scopes.now self.now.table.now
            (component_in self.now) (received_in self.now) definition (instance_tree instance.now)) }
    {
        match definition {
            Some(definition) => self.ask_arguments(alloc, definition, instance.args.as_slice()),
            None => Ok(()),
        }
    }

    /// Reads the arguments of an item that is an instance: the number of the next instance.
    fn ask_item_instance(&self, alloc: Global, count: u32, item: &Item) -> Result<u32, KindErr>
        requires { IsReading self.now }
        ensures next { IfOk result (λ k. k ≡ next_instance count (source_item (view_item item.now))) }
        ensures told { Tells result (values.item_instance_told self.now.scopes.now self.now.table.now
            (component_in self.now) (received_in self.now) self.now.body count (source_item (view_item item.now))) }
    {
        match item {
            Item::Inst(instance) => {
                let definition = self.scopes.definition(self.body, count);
                self.ask_instance(alloc, definition, instance)?;
                Ok(number(count as usize + 1)?)
            }
            Item::Decl(_) | Item::Comp(_) | Item::Def(_) => Ok(count),
        }
    }

    /// Reads the arguments of the instances among the items of the body.
    pub(crate) fn ask_instances(&self, alloc: Global, all: &[Item]) -> Result<(), KindErr>
        requires { IsReading self.now }
        ensures { Tells result (values.instances_told self.now.scopes.now self.now.table.now
            (component_in self.now) (received_in self.now) self.now.body 0 (source_items (view_items all.now))) }
    {
        let mut count = 0;
        for item in all {
            count = self.ask_item_instance(alloc, count, item)?;
        }
        Ok(())
    }
}
