//! What the parameters of each component stand for, one component after the other: a component that gives arguments stands before
//! the instances in it.

ghost use Rattle.std.specs.Prelude.{◌≡◌, ℕ, map, length, IfOk};
ghost use Rattle.cif_source.specs.Source.{Source, source_of};
ghost use Rattle.cif_source.specs.Components.{Component};
ghost use Rattle.cif_source.specs.BodyRules.{MismatchDue};
ghost use Rattle.cif_scope.specs.Scopes.{AreScopesOf};
ghost use Rattle.cif_inst_components.specs.Numbers.{AreComponentsOf, IsNumber};
ghost use Rattle.cif_inst_parameters.specs.Following.{LooksIn};
ghost use Rattle.cif_inst_parameters.specs.Given.{given_items, AreGiven, AreParametersOf};
ghost use Rattle.cif_inst_parameters.specs.Reading.{ReadsFrom};

use crate::following::Follower;
use crate::given::Given;
use crate::instances::all_instances;
use crate::passing::{Bodies, passed_to};
use cif_ast::Spec;
use cif_base::Memory;
use cif_inst_components::Components;
use cif_scope::{Scopes, written_bodies};
use std::alloc::Global;

/// What the parameters of a component stand for.
fn given_of<'a>(
    alloc: Global,
    follower: &Follower<'a, '_>,
    bodies: Bodies<'a, '_>,
    component: u32,
) -> Result<Vec<Given<'a>>, Memory>
    ensures { IfOk result (λ found. (t : Source) (c : Component) → ReadsFrom t follower.now bodies.entry →
        component ≡ length follower.now.given.now → IsNumber t component c → AreGiven t c found.items) }
{
    match passed_to(follower.scopes, follower.components, bodies, component) {
        Some(passed) => follower.arguments(alloc, passed.giver, passed.params, passed.args),
        None => Ok(Vec::new(alloc)),
    }
}

/// What the parameters of each component of a source stand for. The time is linear in the components and their arguments.
pub fn parameters<'a>(
    alloc: Global,
    spec: &'a Spec,
    scopes: &Scopes,
    components: &Components,
) -> Result<Vec<Vec<Given<'a>>>, Memory>
    requires scopes { AreScopesOf (source_of spec.now) scopes.now }
    requires components { AreComponentsOf (source_of spec.now) components.now }
    requires matched { (at : ℕ) → MismatchDue (source_of spec.now) at → ⊥ }
    ensures { IfOk result (λ all. AreParametersOf (source_of spec.now) (map given_items all.items)) }
{
    let written = written_bodies(alloc, spec)?;
    let instances = all_instances(alloc, written.as_slice())?;
    let bodies = Bodies {
        written: written.as_slice(),
        instances: instances.as_slice(),
    };
    let mut given = Vec::new(alloc);
    for component in 0..components.len() {
        let follower = Follower {
            scopes,
            components,
            given: given.as_slice(),
        };
        let next = given_of(alloc, &follower, bodies, component as u32)?;
        given.push(next)?;
    }
    Ok(given)
}
