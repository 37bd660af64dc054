//! Following arguments: what bare names find, where what is given is known for the components before.

ghost use Rattle.std.specs.Prelude.{◌≡◌, ℕ, map, length, zip, IfOk};
ghost use Rattle.cif_ast.specs.View.{view};
ghost use Rattle.cif_source.specs.Source.{Source, ParamTree, param_tree};
ghost use Rattle.cif_source.specs.Components.{Component};
ghost use Rattle.cif_source.specs.Lookup.{found};
ghost use Rattle.cif_source.specs.Uses as uses;
ghost use Rattle.cif_inst_bodies.specs.Arguments.{IsArgumentFor};
ghost use Rattle.cif_inst_parameters.specs.Following as following;
ghost use Rattle.cif_inst_parameters.specs.Given.{IsGiven, given_items};

use crate::given::Given;
use crate::stripping::{bare_name, parentheses_at, without_parentheses};
use cif_ast::{Expr, Name, Param};
use cif_base::Memory;
use cif_inst_components::{Components, Place};
use cif_scope::{Scopes, What};
use std::alloc::Global;

/// What a name finds, and whether that is a parameter.
#[derive(Clone, Copy)]
pub struct Target {
    pub place: Place,
    pub is_parameter: bool,
}

/// What arguments are followed in: what is given is known for the first components.
#[derive(Clone, Copy)]
pub struct Follower<'a, 'b> {
    pub scopes: &'b Scopes,
    pub components: &'b Components,
    pub given: &'b [Vec<Given<'a>>],
}

impl<'a, 'b> Follower<'a, 'b> {
    fn target_at(&self, place: Place) -> Option<Target>
        ensures { result ≡ following.target_at self.now.scopes.now self.now.components.now.all place }
    {
        let one = self.components.get(place.component)?;
        let what = self.scopes.what(one.body, place.slot)?;
        Some(Target {
            place,
            is_parameter: matches!(what, What::Parameter(_)),
        })
    }

    /// What a name finds from a component.
    fn found(&self, component: u32, name: &Name) -> Option<Target>
        ensures { (t : Source) (c : Component) → following.LooksIn t self.now → following.IsNumber t component c →
            following.FindsTarget t (found c name.now) result }
    {
        let place = self.components.find(self.scopes, component, name)?;
        self.target_at(place)
    }

    /// What an expression finds from a component where it is a bare name.
    fn target(&self, component: u32, value: &Expr) -> Option<Target>
        ensures { (t : Source) (c : Component) → following.LooksIn t self.now → following.IsNumber t component c →
            following.FindsBare t c (uses.bare_name (view value.now)) result }
    {
        let name = bare_name(value)?;
        self.found(component, name)
    }

    /// What is given for a parameter.
    fn parameter(&self, place: Place) -> Option<Given<'a>>
        ensures { result ≡ following.given_at (map given_items self.now.given.now) place }
    {
        let of_component = self.given.get(place.component as usize)?;
        let given = of_component.get(place.slot as usize)?;
        Some(*given)
    }

    /// What a bare name stands for as an argument for an event or a location.
    fn named(&self, target: Option<Target>) -> Option<Given<'a>>
        ensures { result ≡ following.named_by (map given_items self.now.given.now) target }
    {
        let target = target?;
        if target.is_parameter {
            self.parameter(target.place)
        } else {
            Some(Given::Named(target.place))
        }
    }

    /// What a bare name of a parameter stands for as an argument for an `alg` parameter, where it has a value. `at` is the place of
    /// the parentheses round it.
    fn valued(&self, target: Option<Target>, at: Option<u32>) -> Option<Given<'a>>
        ensures { result ≡ following.valued_by (map given_items self.now.given.now) at target }
    {
        let target = target?;
        if !target.is_parameter {
            return None;
        }
        match self.parameter(target.place)? {
            Given::Named(_) => None,
            Given::Value {
                giver,
                value,
                at: inner,
            } => Some(Given::Value {
                giver,
                value,
                at: at.or(inner),
            }),
        }
    }

    /// What a bare name stands for as an argument for a parameter.
    fn followed(&self, param: &Param, target: Option<Target>, at: Option<u32>) -> Option<Given<'a>>
        ensures { result ≡ following.followed_by (map given_items self.now.given.now) (param_tree param.now) at target }
    {
        match param {
            Param::Event { .. } | Param::Location { .. } => self.named(target),
            Param::Alg { .. } => self.valued(target, at),
        }
    }

    /// What an argument stands for.
    fn argument(&self, giver: u32, param: &Param, value: &'a Expr) -> Given<'a>
        ensures { (t : Source) (g : Component) → following.FollowsFrom t self.now giver g → (d : Component) →
            IsArgumentFor d (param_tree param.now) g (view value.now) →
            IsGiven t (param_tree param.now) g (view value.now) result }
    {
        let inner = without_parentheses(value);
        let at = parentheses_at(value);
        let target = self.target(giver, inner);
        let plain = Given::Value {
            giver,
            value: inner,
            at,
        };
        self.followed(param, target, at).unwrap_or(plain)
    }

    /// What the parameters of a definition stand for in an instance.
    pub fn arguments(
        &self,
        alloc: Global,
        giver: u32,
        params: &[Param],
        values: &'a [Expr],
    ) -> Result<Vec<Given<'a>>, Memory>
        ensures { IfOk result (λ found. following.AreFollowed self.now giver (map param_tree params.now) (map view values.now)
            (length (zip params.now values.now)) found.items) }
    {
        let mut found = Vec::new(alloc);
        for (param, value) in params.iter().zip(values) {
            found.push(self.argument(giver, param, value))?;
        }
        Ok(found)
    }
}
