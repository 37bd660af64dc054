//! The values of the constants of a source.

ghost use Rattle.std.specs.Prelude.{◌≡◌, ℕ, IfOk, IfErr};
ghost use Rattle.cif_ast.specs.View.{view};
ghost use Rattle.cif_source.specs.Source.{Source, source_of};
ghost use Rattle.cif_system.specs.Words.{Member};
ghost use Rattle.cif_source.specs.Components.{Component, as_written};
ghost use Rattle.cif_source.specs.Objects.{components_of};
ghost use Rattle.cif_source.specs.BodyRules.{NotConstantDue};
ghost use Rattle.cif_inst_components.specs.Numbers.{AreComponentsOf};
ghost use Rattle.cif_inst_bodies.specs.Constancy.{HasConstantNames};
ghost use Rattle.cif_order.specs.Graph.{AreInside, IsOrder};
ghost use Rattle.cif_scope.specs.Scopes.{AreScopesOf};
ghost use Rattle.cif_scope.specs.Tables.{IsBody};
ghost use Rattle.cif_inst_constants.specs.Constants.{HasValues, ConstDue};
ghost use Rattle.cif_inst_constants.specs.Named.{table_value};
ghost use Rattle.cif_inst_constants.specs.Outcomes.{evaluated, outcome};

use crate::error::ConstErr;
use crate::evaluating::evaluate;
use crate::filling::fill;
use crate::graph::constant_graph;
use crate::names::NameValues;
use cif_ast::{Expr, Spec};
use cif_base::{Items, Memory};
use cif_inst_components::Components;
use cif_order::{OrderErr, order};
use cif_scope::{Scopes, number};
use std::alloc::Global;

/// The values of the constants of a source, by their numbers, and the numbers of constants: one for each name of each body.
#[derive(Drop)]
pub struct Constants {
    pub(crate) numbers: Items<Items<u32>>,
    pub(crate) values: Items<i64>,
}

/// An order of these needs. A node that needs itself has none: there is none in a source whose types and constants don't reach
/// themselves.
fn ordered(alloc: Global, needs: &[Items<u32>]) -> Result<Items<u32>, Memory>
    requires { AreInside needs.now }
    ensures { IfOk result (λ all. IsOrder needs.now all) }
{
    number(needs.len())?;
    match order(alloc, needs) {
        Ok(all) => Ok(all),
        Err(OrderErr::Cycle { .. } | OrderErr::Memory) => Err(Memory),
    }
}

/// The values of the constants of the components of a source (CIF 3 language reference, "Constants").
pub fn constant_values(
    alloc: Global,
    spec: &Spec,
    scopes: &Scopes,
    components: &Components,
) -> Result<Constants, ConstErr>
    requires scopes { AreScopesOf (source_of spec.now) scopes.now }
    requires components { AreComponentsOf (source_of spec.now) components.now }
    requires constancy { (at : ℕ) → NotConstantDue (source_of spec.now) at → ⊥ }
    ensures values { IfOk result (λ all. HasValues (source_of spec.now) scopes.now all.numbers all.values) }
    ensures refused { IfErr result (λ e. ConstDue (source_of spec.now) e) }
{
    let graph = constant_graph(alloc, spec, scopes, components)?;
    let sorted = ordered(alloc, graph.needs.as_slice())?;
    let zeros = Items::filled(alloc, 0, graph.needs.len())?;
    match fill(
        scopes,
        graph.numbers.as_slice(),
        graph.constants.as_slice(),
        sorted.as_slice(),
        zeros,
    ) {
        Ok(values) => Ok(Constants {
            numbers: graph.numbers,
            values,
        }),
        Err(at) => Err(ConstErr::ConstantRange { at }),
    }
}

impl Constants {
    /// The value of a constant expression of a body, or `None` where, every operand evaluated, some value in it leaves 64 bits or
    /// some divisor is 0.
    pub fn value(&self, scopes: &Scopes, body: u32, expr: &Expr) -> Option<i64>
        ensures computed { result ≡ evaluated (table_value scopes.now self.now.numbers self.now.values body) (view expr.now) }
        ensures constant { (t : Source) (c : Component) → HasValues t scopes.now self.now.numbers self.now.values
            → Member c (components_of t) → IsBody t body (as_written c) → HasConstantNames c (view expr.now)
            → result ≡ outcome c (view expr.now) }
    {
        let names = NameValues {
            scopes,
            numbers: self.numbers.as_slice(),
            values: self.values.as_slice(),
            body,
        };
        evaluate(expr, &names)
    }
}
