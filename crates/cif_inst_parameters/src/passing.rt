//! What an instance passes to the parameters of its definition.

ghost use Rattle.std.specs.Prelude.{◌≡◌, map, option_map};
ghost use Rattle.cif_scope.specs.Written.{body_of_written};
ghost use Rattle.cif_inst_parameters.specs.Passing as passing;

use crate::instances::instance_at;
use cif_ast::{Expr, Inst, Param};
use cif_inst_components::Components;
use cif_scope::{Scopes, What, Written};

/// The bodies of a source, and the instances in each.
#[derive(Clone, Copy)]
pub struct Bodies<'a, 'b> {
    pub written: &'b [Written<'a>],
    pub instances: &'b [Vec<&'a Inst>],
}

/// The parameters of a definition and the arguments for them, which the component with the number `giver` gives.
#[derive(Clone, Copy)]
pub struct Passed<'a> {
    pub giver: u32,
    pub params: &'a [Param],
    pub args: &'a [Expr],
}

fn params_at<'a>(written: &[Written<'a>], body: u32) -> Option<&'a [Param]>
    ensures { option_map passing.params_now result ≡ passing.params_at (map body_of_written written.now) body }
{
    let one = written.get(body as usize)?;
    Some(one.params)
}

/// What a component is passed, of which only an instance is.
pub fn passed_to<'a>(
    scopes: &Scopes,
    components: &Components,
    bodies: Bodies<'a, '_>,
    component: u32,
) -> Option<Passed<'a>>
    ensures { option_map passing.passed_now result ≡ passing.passed_to scopes.now components.now.all
        (map body_of_written bodies.entry.written.now) (map passing.instances_now bodies.entry.instances.now) component }
{
    let one = components.get(component)?;
    let stands = one.stands?;
    let giver = components.get(stands.component)?;
    let Some(What::Instance(number)) = scopes.what(giver.body, stands.slot) else {
        return None;
    };
    let params = params_at(bodies.written, one.body)?;
    let instance = instance_at(bodies.instances, giver.body, number)?;
    Some(Passed {
        giver: stands.component,
        params,
        args: instance.args.as_slice(),
    })
}
