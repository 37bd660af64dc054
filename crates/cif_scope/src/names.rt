//! Names by their places.

ghost use Rattle.std.specs.Prelude.{◌≡◌, ◌<◌, ◌^◌, [], ◌∷◌, ◌++◌, length, IfSome, IfOk, OnOk, None};
ghost use Rattle.cif_scope.specs.Places.{slot_in};

use cif_base::{Memory, Text};
use indexmap::IndexSet;
use std::alloc::Global;
use std::marker::Model;

/// Names, numbered from 0 in the order in which they were added. A name is found without going through the others.
#[derive(Drop)]
pub struct Names {
    keys: IndexSet<Vec<u8>>,
}

impl Model for Names {
    ghost use Rattle.std.specs.Prelude.{List, ℕ, map};

    ghost Value = { List (List ℕ) };

    ghost view = { λ n. map (λ k. k.items) n.keys.keys };
}

impl Names {
    /// No names.
    pub fn new(alloc: Global) -> Names
        ensures { result ≡ [] }
    {
        Names {
            keys: IndexSet::new(alloc),
        }
    }

    /// Adds a new name.
    pub fn add(&mut self, alloc: Global, name: &Text) -> Result<(), Memory>
        requires { slot_in self.old name.now ≡ None }
        ensures { OnOk result (self.new ≡ self.old ++ name.now ∷ []) }
    {
        let key = Vec::from_slice(alloc, name.as_slice())?;
        self.keys.insert(key)?;
        Ok(())
    }

    /// The place of a name.
    pub fn slot(&self, name: &Text) -> Option<usize>
        ensures slot { result ≡ slot_in self.now name.now }
        ensures within { IfSome result (λ k. k < length self.now) }
    {
        self.keys.get_index_of(name.as_slice())
    }
}
