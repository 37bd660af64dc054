//! What a name finds from a component: its first part in the scope of the component and outward, each further part in the component
//! that the part before it denotes.

ghost use Rattle.std.specs.Prelude.{◌≡◌, ◌<◌, length};
ghost use Rattle.cif_inst_components.specs.Finding as finding;

use crate::children::Children;
use crate::components::{Component, Place};
use cif_ast::{Ident, Name};
use cif_base::Text;
use cif_scope::{Scopes, What};

/// There are no more components than there may be objects.
const MOST_COMPONENTS: usize = 100_000;

/// What names are looked up in. Outer components are known of the first ones, and of those that are written where they stand.
#[derive(Clone, Copy)]
pub struct Finder<'a> {
    pub scopes: &'a Scopes,
    pub all: &'a [Component],
    pub outers: &'a [Option<u32>],
    pub children: &'a Children,
}

impl<'a> Finder<'a> {
    fn body(&self, component: u32) -> Option<u32>
        ensures { result ≡ finding.body_at self.now.all.now component }
    {
        let one = self.all.get(component as usize)?;
        Some(one.body)
    }

    /// The outer component, or where it stands.
    fn outer(&self, component: u32) -> Option<u32>
        ensures { result ≡ finding.outer_at self.now.all.now self.now.outers.now component }
    {
        if let Some(outer) = self.outers.get(component as usize) {
            return *outer;
        }
        let one = self.all.get(component as usize)?;
        let stands = one.stands?;
        Some(stands.component)
    }

    /// The component that stands at a place.
    fn child(&self, place: Place) -> Option<u32>
        ensures { result ≡ finding.child_of self.now.children.now place }
    {
        let number = self.children.number(place)?;
        if number < MOST_COMPONENTS {
            Some(number as u32 + 1)
        } else {
            None
        }
    }

    fn slot(&self, component: u32, text: &Text) -> Option<u32>
        ensures { result ≡ finding.slot_at self.now.scopes.now self.now.all.now component text.now }
    {
        let body = self.body(component)?;
        self.scopes.own(body, text)
    }

    fn what(&self, place: Place) -> Option<What>
        ensures { result ≡ finding.what_at self.now.scopes.now self.now.all.now place }
    {
        let body = self.body(place.component)?;
        self.scopes.what(body, place.slot)
    }

    /// A name in the scope of a component and outward.
    fn outward(&self, component: u32, text: &Text) -> Option<Place>
        ensures { result ≡ finding.look_out (finding.finder self.now) (length self.now.scopes.now.table.scopes) component text.now }
    {
        let mut at = component;
        for _turn in 0..self.scopes.bodies() {
            if let Some(slot) = self.slot(at, text) {
                return Some(Place {
                    component: at,
                    slot,
                });
            }
            at = self.outer(at)?;
        }
        None
    }

    /// A name in a component, where parameters aren't found.
    fn inside(&self, component: u32, text: &Text) -> Option<Place>
        ensures { result ≡ finding.look_inside (finding.finder self.now) component text.now }
    {
        let slot = self.slot(component, text)?;
        let place = Place { component, slot };
        match self.what(place) {
            None | Some(What::Parameter(_)) => None,
            Some(_) => Some(place),
        }
    }

    /// One further part of a name. Instances are passed where `passes` says so.
    fn step(&self, passes: bool, from: Place, text: &Text) -> Option<Place>
        ensures { result ≡ finding.step (finding.finder self.now) passes from text.now }
    {
        match self.what(from)? {
            What::Component(_) => self.inside(self.child(from)?, text),
            What::Instance(_) if passes => self.inside(self.child(from)?, text),
            _ => None,
        }
    }

    /// The first part of a name, which is looked up at the specification alone where a dot stands before it.
    fn first(&self, from_root: bool, component: u32, text: &Text) -> Option<Place>
        ensures { result ≡ finding.first_part (finding.finder self.now) from_root component text.now }
    {
        if !from_root {
            return self.outward(component, text);
        }
        let slot = self.slot(0, text)?;
        Some(Place { component: 0, slot })
    }

    /// The further parts of a name.
    fn steps(&self, passes: bool, from: Place, parts: &[Ident]) -> Option<Place>
        ensures { result ≡ finding.steps (finding.finder self.now) passes from parts.now }
    {
        let mut at = from;
        for part in parts {
            at = self.step(passes, at, &part.text)?;
        }
        Some(at)
    }

    /// Where a name leads from a component.
    pub fn find(&self, passes: bool, component: u32, name: &Name) -> Option<Place>
        ensures { result ≡ finding.look (finding.finder self.now) passes component name.now }
    {
        let (first, rest) = name.parts.as_slice().split_first()?;
        let from = self.first(name.from_root, component, &first.text)?;
        self.steps(passes, from, rest)
    }
}
