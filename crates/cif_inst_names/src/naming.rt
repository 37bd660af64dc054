//! Names as expressions of the net: what is declared stands at the place that is asked for, and what another component gave is
//! translated in that component and keeps its own place.

ghost use Rattle.std.specs.Prelude.{◌≡◌, IfOk};
ghost use Rattle.cif_net_expr.specs.View as net;
ghost use Rattle.cif_inst_parameters.specs.Given.{placed_at};
ghost use Rattle.cif_inst_names.specs.Objects as objects;
ghost use Rattle.cif_inst_names.specs.ReadsNames.{IsHome, IsRead, name_in};

use crate::expressions::Maker;
use crate::looking::Looking;
use crate::nodes::{node, placed};
use crate::objects::{Meaning, Object, Value};
use cif_ast::Name;
use cif_base::{Boxed, Memory};
use cif_net_expr::{NetExpr, NetForm};
use std::alloc::Global;

pub fn form_of(object: Object) -> NetForm
    ensures { net.view_form result ≡ objects.object_form object }
{
    match object {
        Object::Known(Value::Truth(value)) => NetForm::Bool(value),
        Object::Known(Value::Number(value)) => NetForm::Int(value),
        Object::Var(number) => NetForm::Var(number),
        Object::Input(number) => NetForm::Input(number),
        Object::Alg(number) => NetForm::Alg(number),
        Object::Location { auto, place } => NetForm::Loc { auto, place },
        Object::Event(_) | Object::Nothing => NetForm::Int(0),
    }
}

/// The expression, at the place of the parentheses round it where there are some.
pub fn in_parentheses(
    alloc: Global,
    expr: Boxed<NetExpr>,
    at: Option<u32>,
) -> Result<Boxed<NetExpr>, Memory>
    ensures { IfOk result (λ x. net.view x ≡ placed_at at (net.view expr)) }
{
    match at {
        Some(at) => placed(alloc, expr, at),
        None => Ok(expr),
    }
}

pub fn meaning_in<'a>(looking: &Looking<'a, '_>, component: u32, name: &Name) -> Meaning<'a>
    requires { IsHome looking.now component }
    ensures { IsRead looking.now component name.now result }
{
    looking.meaning(component, name)
}

/// What a name of a component stands for, through so many arguments in one another at most.
#[tactic(auto, unfolding(crate::specs::ReadsNames::ReadsNames))]
pub fn named(
    alloc: Global,
    looking: &Looking<'_, '_>,
    component: u32,
    name: &Name,
    at: u32,
    left: u8,
) -> Result<Boxed<NetExpr>, Memory>
    requires { IsHome looking.now component }
    ensures { IfOk result (λ x. net.view x ≡ name_in looking.now component name.now at) }
{
    match meaning_in(looking, component, name) {
        Meaning::Object(object) => node(alloc, form_of(object), at),
        Meaning::Given {
            parameter: _,
            giver,
            value,
            at: round,
        } => {
            if left == 0 {
                return Err(Memory);
            }
            let maker = Maker {
                alloc,
                looking,
                component: giver,
                left: left - 1,
                names: named,
            };
            in_parentheses(alloc, maker.expr(value)?, round)
        }
    }
}
