//! Which component stands under a name of another one.

ghost use Rattle.std.specs.Prelude.{◌≡◌, ◌<◌, [], ◌∷◌, ◌++◌, length, IfSome, OnOk, None};
ghost use Rattle.cif_inst_components.specs.Children.{place_in};

use crate::components::Place;
use cif_base::Memory;
use indexmap::IndexSet;
use std::alloc::Global;
use std::marker::Model;

/// The places at which components stand, numbered from 0 in the order in which they were added. A place is found without going
/// through the others.
#[derive(Drop)]
pub struct Children {
    places: IndexSet<Place>,
}

impl Model for Children {
    ghost use Rattle.std.specs.Prelude.{List};
    ghost use Rattle.cif_inst_components.specs.declared.components.Place.{Place};

    ghost Value = { List Place };

    ghost view = { λ n. n.places.keys };
}

impl Children {
    /// No places.
    pub fn new(alloc: Global) -> Children
        ensures { result ≡ [] }
    {
        Children {
            places: IndexSet::new(alloc),
        }
    }

    /// Adds a new place.
    pub fn add(&mut self, place: Place) -> Result<(), Memory>
        requires { place_in self.old place ≡ None }
        ensures { OnOk result (self.new ≡ self.old ++ place ∷ []) }
    {
        self.places.insert(place)?;
        Ok(())
    }

    /// The number of a place.
    pub fn number(&self, place: Place) -> Option<usize>
        ensures number { result ≡ place_in self.now place }
        ensures within { IfSome result (λ k. k < length self.now) }
    {
        self.places.get_index_of(&place)
    }
}
