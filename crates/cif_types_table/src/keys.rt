//! Texts by their places.

ghost use Rattle.std.specs.Prelude.{◌≡◌, ◌<◌, [], ◌∷◌, ◌++◌, length, IfSome, OnOk, None};
ghost use Rattle.cif_scope.specs.Places.{slot_in};

use cif_base::{Memory, Text};
use indexmap::IndexSet;
use std::alloc::Global;
use std::marker::Model;

/// Texts, numbered from 0 in the order in which they were added. A text is found without going through the others.
#[derive(Drop)]
pub struct Keys {
    keys: IndexSet<Vec<u8>>,
}

impl Model for Keys {
    ghost use Rattle.std.specs.Prelude.{List, ℕ, map};

    ghost Value = { List (List ℕ) };

    ghost view = { λ n. map (λ k. k.items) n.keys.keys };
}

impl Keys {
    /// No texts.
    pub fn new(alloc: Global) -> Keys
        ensures { result ≡ [] }
    {
        Keys {
            keys: IndexSet::new(alloc),
        }
    }

    /// Adds a new text.
    pub fn add(&mut self, key: Text) -> Result<(), Memory>
        requires { slot_in self.old key ≡ None }
        ensures { OnOk result (self.new ≡ self.old ++ key ∷ []) }
    {
        self.keys.insert(key.into_vec())?;
        Ok(())
    }

    /// The place of a text.
    pub fn place(&self, key: &Text) -> Option<usize>
        ensures place { result ≡ slot_in self.now key.now }
        ensures within { IfSome result (λ k. k < length self.now) }
    {
        self.keys.get_index_of(key.as_slice())
    }
}
