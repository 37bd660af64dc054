//! Reading the types and the values of declarations.

ghost use Rattle.std.specs.Prelude.{map, option_map};
ghost use Rattle.cif_ast.specs.View.{view};
ghost use Rattle.cif_source.specs.Source.{type_tree, channel_tree, param_tree, decl_tree, invariant_tree};
ghost use Rattle.cif_source.specs.Kinds.{bool_kind};
ghost use Rattle.cif_source.specs.Demands.{predicate_of};
ghost use Rattle.cif_types_kinds.specs.Tables.{kind_for};
ghost use Rattle.cif_types_kinds.specs.Readings.{IsReading, component_in, lists_in, received_in};
ghost use Rattle.cif_types_kinds.specs.Faults.{Tells};
ghost use Rattle.cif_types_kinds.specs.Values as values;

use crate::error::KindErr;
use crate::kind::Kind;
use crate::reading::Reading;
use cif_ast::{Chan, Decl, Expr, Ident, Inv, Param, TypeUse};
use std::alloc::Global;

impl<'a> Reading<'a> {
    /// Asks the bounds of a type for integers.
    fn ask_type(&self, alloc: Global, ty: &TypeUse) -> Result<(), KindErr>
        requires { IsReading self.now }
        ensures { Tells result (values.type_told (component_in self.now) (received_in self.now) (type_tree ty.now)) }
    {
        match ty {
            TypeUse::Range(lower, upper) => {
                self.ask(alloc, Kind::Int, lower)?;
                self.ask(alloc, Kind::Int, upper)?;
                Ok(())
            }
            TypeUse::Bool | TypeUse::Int | TypeUse::Named(_) => Ok(()),
        }
    }

    fn ask_channel(&self, alloc: Global, chan: &Chan) -> Result<(), KindErr>
        requires { IsReading self.now }
        ensures { Tells result (values.channel_told (component_in self.now) (received_in self.now) (channel_tree chan.now)) }
    {
        match chan {
            Chan::Of(ty) => self.ask_type(alloc, ty),
            Chan::No | Chan::Void => Ok(()),
        }
    }

    fn ask_param(&self, alloc: Global, param: &Param) -> Result<(), KindErr>
        requires { IsReading self.now }
        ensures { Tells result (values.param_told (component_in self.now) (received_in self.now) (param_tree param.now)) }
    {
        match param {
            Param::Event {
                class: _,
                chan,
                name: _,
            } => self.ask_channel(alloc, chan),
            Param::Alg { ty, name: _ } => self.ask_type(alloc, ty),
            Param::Location { .. } => Ok(()),
        }
    }

    /// Asks the bounds of the types of parameters for integers.
    pub(crate) fn ask_params(&self, alloc: Global, all: &[Param]) -> Result<(), KindErr>
        requires { IsReading self.now }
        ensures { Tells result (values.first_told (values.param_told (component_in self.now) (received_in self.now)) (map param_tree all.now)) }
    {
        for param in all {
            self.ask_param(alloc, param)?;
        }
        Ok(())
    }

    /// Asks the bounds of the type of a declaration for integers.
    pub(crate) fn ask_decl_type(&self, alloc: Global, decl: &Decl) -> Result<(), KindErr>
        requires { IsReading self.now }
        ensures { Tells result (values.decl_type_told (component_in self.now) (received_in self.now) (decl_tree decl.now)) }
    {
        match decl {
            Decl::TypeName { name: _, ty } | Decl::Input { ty, name: _ } => {
                self.ask_type(alloc, ty)
            }
            Decl::Event {
                class: _,
                chan,
                name: _,
            } => self.ask_channel(alloc, chan),
            Decl::Const {
                ty,
                name: _,
                value: _,
            } => self.ask_type(alloc, ty),
            Decl::Alg {
                ty,
                name: _,
                value: _,
            }
            | Decl::Disc {
                ty,
                name: _,
                value: _,
            } => self.ask_type(alloc, ty),
            Decl::Enum { .. } | Decl::Equation { .. } | Decl::Inv(_) | Decl::Marked(_) => Ok(()),
        }
    }

    fn ask_optional(&self, alloc: Global, asks: Kind, value: &Option<Expr>) -> Result<(), KindErr>
        requires { IsReading self.now }
        ensures { Tells result (values.optional_told (component_in self.now) (received_in self.now) (kind_for (lists_in self.now) asks) (option_map view value.now)) }
    {
        match value {
            Some(expr) => {
                self.ask(alloc, asks, expr)?;
                Ok(())
            }
            None => Ok(()),
        }
    }

    /// Asks the value of what the body itself declares for its kind.
    pub(crate) fn ask_own(&self, alloc: Global, name: &Ident, value: &Expr) -> Result<(), KindErr>
        requires { IsReading self.now }
        ensures { Tells result (values.own_told (component_in self.now) (received_in self.now) name.now (view value.now)) }
    {
        let asks = self.kind_of_own(name);
        self.ask(alloc, asks, value)?;
        Ok(())
    }

    fn ask_invariant(&self, alloc: Global, inv: &Inv) -> Result<(), KindErr>
        requires { IsReading self.now }
        ensures { Tells result (values.value_told (component_in self.now) (received_in self.now) bool_kind (predicate_of (invariant_tree inv.now))) }
    {
        match inv {
            Inv::State(p) => {
                self.ask(alloc, Kind::Bool, p)?;
                Ok(())
            }
            Inv::Needs { events: _, p } => {
                self.ask(alloc, Kind::Bool, p)?;
                Ok(())
            }
            Inv::Disables { p, events: _ } => {
                self.ask(alloc, Kind::Bool, p)?;
                Ok(())
            }
        }
    }

    /// Asks the value of a declaration for its kind.
    pub(crate) fn ask_decl(&self, alloc: Global, decl: &Decl) -> Result<(), KindErr>
        requires { IsReading self.now }
        ensures { Tells result (values.decl_told (component_in self.now) (received_in self.now) (decl_tree decl.now)) }
    {
        match decl {
            Decl::Const { ty: _, name, value } => self.ask_own(alloc, name, value),
            Decl::Equation { name, value } => self.ask_own(alloc, name, value),
            Decl::Alg { ty: _, name, value } | Decl::Disc { ty: _, name, value } => {
                self.ask_optional(alloc, self.kind_of_own(name), value)
            }
            Decl::Inv(inv) => self.ask_invariant(alloc, inv),
            Decl::Marked(p) => {
                self.ask(alloc, Kind::Bool, p)?;
                Ok(())
            }
            Decl::TypeName { .. } | Decl::Enum { .. } | Decl::Event { .. } | Decl::Input { .. } => {
                Ok(())
            }
        }
    }

    /// Asks the bounds of the types of declarations for integers.
    pub(crate) fn ask_decl_types(&self, alloc: Global, all: &[Decl]) -> Result<(), KindErr>
        requires { IsReading self.now }
        ensures { Tells result (values.first_told (values.decl_type_told (component_in self.now) (received_in self.now)) (map decl_tree all.now)) }
    {
        for decl in all {
            self.ask_decl_type(alloc, decl)?;
        }
        Ok(())
    }

    /// Asks the values of declarations for their kinds.
    pub(crate) fn ask_decls(&self, alloc: Global, all: &[Decl]) -> Result<(), KindErr>
        requires { IsReading self.now }
        ensures { Tells result (values.first_told (values.decl_told (component_in self.now) (received_in self.now)) (map decl_tree all.now)) }
    {
        for decl in all {
            self.ask_decl(alloc, decl)?;
        }
        Ok(())
    }
}
