//! The expressions, guards and sent values of a component.

ghost use Rattle.std.specs.Prelude.{◌≡◌, ◌<◌, length, map, option_map, IfOk};
ghost use Rattle.cif_ast.specs.View.{view, view_exprs};
ghost use Rattle.cif_source.specs.Objects.{components_of};
ghost use Rattle.cif_source.specs.Source.{list_of_trees, role_tree};
ghost use Rattle.cif_net_expr.specs.View as net;
ghost use Rattle.cif_inst_model.specs.Translation.{net_of, net_list, net_guard, conjunction};
ghost use Rattle.cif_inst_model.specs.Flat.{sent_tree};
ghost use Rattle.cif_inst_names.specs.Looking.{AreNamesOf, source_for, component_at};

use crate::expressions::Maker;
use crate::looking::Looking;
use crate::naming::named;
use crate::nodes::node;
use cif_ast::{Expr, Role};
use cif_base::{Boxed, Memory};
use cif_net_expr::{NetExpr, NetForm};
use std::alloc::Global;

/// Through how many arguments in one another names are followed. Each of them but the last has a form above the name, and no
/// expression is deeper than 100 forms, so sources with more are refused before.
const MOST_ARGUMENTS: u8 = 101;

/// An expression of a component.
#[tactic(auto, unfolding(crate::specs::ReadsNames::IsHome, crate::specs::ReadsNames::ReadsNames))]
pub fn expression(
    alloc: Global,
    looking: &Looking,
    component: u32,
    expr: &Expr,
) -> Result<Boxed<NetExpr>, Memory>
    requires names { AreNamesOf looking.now }
    requires component { component < length (components_of (source_for looking.now)) }
    ensures { IfOk result (λ x. net.view x ≡ net_of (component_at looking.now component) (view expr.now)) }
{
    Maker {
        alloc,
        looking,
        component,
        left: MOST_ARGUMENTS,
        names: named,
    }
    .expr(expr)
}

/// Conditions of a component as one, with the place of the first.
#[tactic(auto, unfolding(crate::specs::ReadsNames::IsHome, crate::specs::ReadsNames::ReadsNames))]
pub fn condition(
    alloc: Global,
    looking: &Looking,
    component: u32,
    conds: &[Expr],
) -> Result<Boxed<NetExpr>, Memory>
    requires names { AreNamesOf looking.now }
    requires component { component < length (components_of (source_for looking.now)) }
    ensures { IfOk result (λ x. net.view x ≡ conjunction (net_list (component_at looking.now component) (list_of_trees (view_exprs conds.now)))) }
{
    Maker {
        alloc,
        looking,
        component,
        left: MOST_ARGUMENTS,
        names: named,
    }
    .condition(conds)
}

/// The guard of an edge of a component. Without guards it is `true`, at the place that is given.
pub fn guard(
    alloc: Global,
    looking: &Looking,
    component: u32,
    at: u32,
    guards: &[Expr],
) -> Result<Boxed<NetExpr>, Memory>
    requires names { AreNamesOf looking.now }
    requires component { component < length (components_of (source_for looking.now)) }
    ensures { IfOk result (λ x. net.view x ≡ net_guard (component_at looking.now component) at (map view guards.now)) }
{
    match guards {
        [] => node(alloc, NetForm::Bool(true), at),
        [_, ..] => condition(alloc, looking, component, guards),
    }
}

/// The value that an edge of a component sends, if it sends one.
pub fn sent(
    alloc: Global,
    looking: &Looking,
    component: u32,
    role: &Role,
) -> Result<Option<Boxed<NetExpr>>, Memory>
    requires names { AreNamesOf looking.now }
    requires component { component < length (components_of (source_for looking.now)) }
    ensures { IfOk result (λ x. option_map net.view x ≡ option_map (net_of (component_at looking.now component)) (sent_tree (role_tree role.now))) }
{
    match role {
        Role::Send(Some(value)) => Ok(Some(expression(alloc, looking, component, value)?)),
        Role::Send(None) | Role::Sync | Role::Recv => Ok(None),
    }
}
