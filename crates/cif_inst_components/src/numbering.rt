//! Numbering the components of a source.

ghost use Rattle.std.specs.Prelude.{◌≡◌, ℕ, None, length, filter_map, slice_get, unwrap_or, IfOk};
ghost use Rattle.std.specs.Result.{IfErr};
ghost use Rattle.cif_system.specs.Words.{AreDistinct};
ghost use Rattle.cif_source.specs.Source.{Source, source_of};
ghost use Rattle.cif_source.specs.Components as source;
ghost use Rattle.cif_source.specs.Lookup.{found};
ghost use Rattle.cif_source.specs.InstanceRules.{TooManyObjectsDue};
ghost use Rattle.cif_scope.specs.Scopes.{AreScopesOf};
ghost use Rattle.cif_inst_components.specs.Numbers.{AreComponentsOf, Finds, IsNumber, due, stands_of};

use crate::children::Children;
use crate::components::{Component, Components, Place};
use crate::error::ComponentsErr;
use crate::finding::Finder;
use crate::kids::all_kids;
use crate::listing::{Bodies, listed};
use crate::outers::all_outers;
use crate::sizes::all_sizes;
use cif_ast::{Name, Spec};
use cif_base::Memory;
use cif_scope::{Scopes, written_bodies};
use std::alloc::Global;

/// The places at which the components stand but the first.
fn children_of(alloc: Global, all: &[Component]) -> Result<Children, Memory>
    requires { AreDistinct (filter_map stands_of all.now) }
    ensures { IfOk result (λ children. children ≡ filter_map stands_of all.now) }
{
    let mut children = Children::new(alloc);
    for component in all {
        if let Some(stands) = component.stands {
            children.add(stands)?;
        }
    }
    Ok(children)
}

/// The components of a source by numbers, or that there are too many objects in them (17).
pub fn number_components(
    alloc: Global,
    spec: &Spec,
    scopes: &Scopes,
) -> Result<Components, ComponentsErr>
    requires { AreScopesOf (source_of spec.now) scopes.now }
    ensures numbers { IfOk result (λ c. AreComponentsOf (source_of spec.now) c) }
    ensures few { IfOk result (λ c. (count : ℕ) → TooManyObjectsDue (source_of spec.now) count → ⊥) }
    ensures refused { IfErr result (λ e. due (source_of spec.now) e) }
{
    let written = written_bodies(alloc, spec)?;
    let kids = all_kids(alloc, scopes)?;
    let sizes = all_sizes(alloc, written.as_slice())?;
    let bodies = Bodies {
        kids: kids.as_slice(),
        sizes: sizes.as_slice(),
    };
    let all = listed(alloc, &bodies)?;
    let children = children_of(alloc, all.as_slice())?;
    let outers = all_outers(alloc, scopes, written.as_slice(), all.as_slice(), &children)?;
    Ok(Components {
        all,
        outers,
        children,
    })
}

impl Components {
    /// How many there are.
    pub fn len(&self) -> usize
        ensures { result ≡ length self.now.all }
    {
        self.all.len()
    }

    /// A component by its number.
    pub fn get(&self, component: u32) -> Option<Component>
        ensures { result ≡ slice_get self.now.all component }
    {
        let one = self.all.get(component as usize)?;
        Some(*one)
    }

    /// The component in which the body of a component is written, which the specification doesn't have.
    pub fn outer(&self, component: u32) -> Option<u32>
        ensures { result ≡ unwrap_or (slice_get self.now.outers component) None }
    {
        let outer = self.outers.get(component as usize)?;
        *outer
    }

    /// What a name finds from a component, through instances too.
    pub fn find(&self, scopes: &Scopes, component: u32, name: &Name) -> Option<Place>
        ensures { (t : Source) (c : source.Component) → AreScopesOf t scopes.now → AreComponentsOf t self.now →
            IsNumber t component c → Finds t (found c name.now) result }
    {
        let finder = Finder {
            scopes,
            all: self.all.as_slice(),
            outers: self.outers.as_slice(),
            children: &self.children,
        };
        finder.find(true, component, name)
    }
}
