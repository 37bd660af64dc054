//! The names of variables, found through a map, the case of letters ignored.

ghost use Rattle.std.specs.Prelude.{◌≡◌, [], ◌∷◌, ◌++◌, map, not, IfOk, if◌then◌else◌};
ghost use Rattle.st_check.specs.Keys as keys;

use cif_base::Memory;
use indexmap::IndexSet;
use std::alloc::Global;
use std::marker::Model;

/// The key of a name: the name with its capital letters as small ones.
fn key(alloc: Global, name: &[u8]) -> Result<Vec<u8>, Memory>
    ensures { IfOk result (λ k. k.items ≡ keys.key name.now) }
{
    Ok(name.to_ascii_lowercase(alloc)?)
}

/// The most bytes of a name that is looked up without taking heap.
const SHORT: usize = 32;

/// The keys of names, numbered from 0 in the order in which they were added.
#[derive(Drop)]
pub struct Names {
    keys: IndexSet<Vec<u8>>,
}

impl Model for Names {
    ghost use Rattle.std.specs.Prelude.{List, ℕ, map};

    ghost Value = { List (List ℕ) };

    ghost view = { λ n. map (λ k. k.items) n.keys.keys };
}

impl Names {
    /// No names.
    pub fn new(alloc: Global) -> Names
        ensures { result ≡ [] }
    {
        Names {
            keys: IndexSet::new(alloc),
        }
    }

    /// Adds a name, and tells whether it is new.
    pub fn add(&mut self, alloc: Global, name: &[u8]) -> Result<bool, Memory>
        ensures new { IfOk result (λ new. new ≡ not (keys.is_among self.old (keys.key name.now))) }
        ensures names { IfOk result (λ new. self.new
            ≡ (if keys.is_among self.old (keys.key name.now) then self.old else self.old ++ keys.key name.now ∷ [])) }
    {
        Ok(self.keys.insert(key(alloc, name)?)?)
    }

    /// The number of a key.
    fn number_of(&self, key: &[u8]) -> Option<usize>
        ensures { result ≡ keys.found_at self.now key.now }
    {
        self.keys.get_index_of(key)
    }

    /// The number of a name.
    pub fn number(&self, alloc: Global, name: &[u8]) -> Result<Option<usize>, Memory>
        ensures { IfOk result (λ found. found ≡ keys.found_at self.now (keys.key name.now)) }
    {
        let mut short = [0; SHORT];
        match short.get_mut(..name.len()) {
            Some(key) => {
                key.copy_from_slice(name);
                key.make_ascii_lowercase();
                Ok(self.number_of(key))
            }
            None => {
                let key = key(alloc, name)?;
                Ok(self.number_of(key.as_slice()))
            }
        }
    }
}
