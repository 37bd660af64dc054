//! What is tallied of names, found through a map.

ghost use Rattle.std.specs.Prelude.{◌≡◌, [], IfOk, OnOk};
ghost use Rattle.cif_types_equations.specs.Tallies.{tally_in, with_tally};

use cif_base::{Memory, Text};
use indexmap::IndexMap;
use std::alloc::Global;
use std::marker::Model;

/// What is tallied of a name: how many equations of the component define it, and in how many locations it has exactly one so far.
/// That is `None` once a location has two, or has one after another location had none.
#[derive(Clone, Copy, Debug, PartialEq, Eq)]
pub struct Tally {
    pub own: u32,
    pub placed: Option<u32>,
}

/// The tallies of names. A name is found without going through the others.
#[derive(Drop)]
pub struct Tallies {
    tallies: IndexMap<Vec<u8>, Tally>,
}

impl Model for Tallies {
    ghost use Rattle.std.specs.Prelude.{List, ℕ, map};
    ghost use Rattle.cif_types_equations.specs.declared.tallies.Tally.{Tally};

    ghost Value = { List (List ℕ × Tally) };

    ghost view = { λ t. map (λ e. (e.0.items, e.1)) t.tallies.entries };
}

impl Tallies {
    /// No names.
    pub fn new(alloc: Global) -> Tallies
        ensures { result ≡ [] }
    {
        Tallies {
            tallies: IndexMap::new(alloc),
        }
    }

    /// The tally of a name.
    pub fn of(&self, name: &Text) -> Tally
        ensures { result ≡ tally_in self.now name.now }
    {
        match self.tallies.get(name.as_slice()) {
            Some(tally) => *tally,
            None => Tally {
                own: 0,
                placed: Some(0),
            },
        }
    }

    /// Puts the tally of a name in place of the one before.
    pub fn put(&mut self, alloc: Global, name: &Text, tally: Tally) -> Result<(), Memory>
        ensures { OnOk result (self.new ≡ with_tally self.old name.now tally) }
    {
        let key = Vec::from_slice(alloc, name.as_slice())?;
        self.tallies.insert(key, tally)?;
        Ok(())
    }
}
