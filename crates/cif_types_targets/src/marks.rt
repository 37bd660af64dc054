//! Numbers of updates by the variables that they assign, found through a map.

ghost use Rattle.std.specs.Prelude.{◌≡◌, [], nat_eq, OnOk};
ghost use Rattle.std.specs.Map.{lookup};
ghost use Rattle.indexmap.specs.IndexMap.{insert_entry};

use cif_base::Memory;
use indexmap::IndexMap;
use std::alloc::Global;
use std::marker::Model;

/// For variables, by their slots, the number of the update that assigns them. A slot is found without going through the others.
#[derive(Drop)]
pub struct Marks {
    updates: IndexMap<u32, u32>,
}

impl Model for Marks {
    ghost use Rattle.std.specs.Prelude.{List, ℕ};

    ghost Value = { List (ℕ × ℕ) };

    ghost view = { λ m. m.updates.entries };
}

impl Marks {
    /// No variables.
    pub fn new(alloc: Global) -> Marks
        ensures { result ≡ [] }
    {
        Marks {
            updates: IndexMap::new(alloc),
        }
    }

    /// The number of the update that assigns a variable.
    pub fn of(&self, slot: u32) -> Option<u32>
        ensures { result ≡ lookup (nat_eq slot) self.now }
    {
        self.updates.get(&slot).copied()
    }

    /// Notes that an update assigns a variable.
    pub fn put(&mut self, slot: u32, update: u32) -> Result<(), Memory>
        ensures { OnOk result (self.new ≡ insert_entry nat_eq self.old slot update) }
    {
        self.updates.insert(slot, update)?;
        Ok(())
    }
}
