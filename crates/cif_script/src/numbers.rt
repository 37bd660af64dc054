//! Numbers by paths.

ghost use Rattle.std.specs.Prelude.{◌≡◌, [], ◌∷◌, ◌++◌, is_some, if◌then◌else◌, OnOk};
ghost use Rattle.cif_script.specs.Numbers.{number_at};

use cif_base::{Memory, Text};
use indexmap::IndexMap;
use std::alloc::Global;
use std::marker::Model;

/// Numbers by path, each path once.
#[derive(Drop)]
pub struct Numbers<'a> {
    by_path: IndexMap<&'a [u8], u32>,
}

impl<'a> Model for Numbers<'a> {
    ghost use Rattle.std.specs.Prelude.{List, ℕ, map};

    ghost Value = { List (List ℕ × ℕ) };

    ghost view = { λ n. map (λ e. (e.0.now, e.1)) n.by_path.entries };
}

impl<'a> Numbers<'a> {
    /// No numbers.
    pub fn new(alloc: Global) -> Numbers<'a>
        ensures { result ≡ [] }
    {
        Numbers {
            by_path: IndexMap::new(alloc),
        }
    }

    /// Adds the number of a path, unless the path has one.
    pub fn add(&mut self, path: &'a Text, number: u32) -> Result<(), Memory>
        ensures { OnOk result (self.new ≡ (if is_some (number_at self.old path.now) then self.old else self.old ++ (path.now, number) ∷ [])) }
    {
        let key = path.as_slice();
        if !self.by_path.contains_key(key) {
            self.by_path.insert(key, number)?;
        }
        Ok(())
    }

    /// The number of a path.
    pub fn number(&self, path: &[u8]) -> Option<u32>
        ensures { result ≡ number_at self.now path.now }
    {
        self.by_path.get(path).copied()
    }
}
