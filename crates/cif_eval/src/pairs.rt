//! Pairs of a variable and its new value, in room that is taken once.

ghost use Rattle.std.specs.Prelude.{◌≡◌, ◌+◌, ◌<◌, ◌≤◌, length, [], ◌∷◌, ◌++◌, OnOk};

use cif_base::{Items, Memory};
use std::alloc::Global;
use std::marker::Model;

/// A list of pairs that has room for some number of them.
#[derive(Drop)]
pub(crate) struct Pairs {
    items: Items<(u32, i64)>,
    used: usize,
}

impl Model for Pairs {
    ghost use Rattle.std.specs.Prelude.{◌≤◌, take, length};
    ghost use Rattle.cif_eval.specs.Held.{Held};

    ghost Value = { Held };

    ghost view = { λ p. record { pairs = take p.used p.items; room = length p.items } };

    ghost invariant = { λ p. p.used ≤ length p.items };
}

impl Pairs {
    /// No pairs, and no room.
    pub(crate) fn new(alloc: Global) -> Pairs
        ensures { result.pairs ≡ [] }
    {
        Pairs {
            items: Items::new(alloc),
            used: 0,
        }
    }

    /// Removes all pairs. The room stays.
    pub(crate) fn clear(&mut self)
        ensures pairs { self.new.pairs ≡ [] }
        ensures room { self.new.room ≡ self.old.room }
    {
        self.used = 0;
    }

    /// Adds a pair at the end.
    pub(crate) fn push(&mut self, variable: u32, value: i64)
        requires { length self.old.pairs < self.old.room }
        ensures pairs { self.new.pairs ≡ self.old.pairs ++ (variable, value) ∷ [] }
        ensures count { length self.new.pairs ≡ length self.old.pairs + 1 }
        ensures room { self.new.room ≡ self.old.room }
    {
        prove!(self.used < self.items.len());
        self.items.set(self.used, (variable, value));
        self.used += 1;
    }

    /// Adds some pair at the end, and takes memory where it has no room.
    pub(crate) fn grow(&mut self) -> Result<(), Memory>
        ensures pairs { OnOk result (length self.new.pairs ≡ length self.old.pairs + 1) }
        ensures room { self.old.room ≤ self.new.room }
    {
        if self.used == self.items.len() {
            self.items.push((0, 0))?;
            self.used = self.items.len();
        } else {
            self.used += 1;
        }
        Ok(())
    }

    pub(crate) fn as_slice(&self) -> &[(u32, i64)]
        ensures { result.now ≡ self.now.pairs }
    {
        &self.items.as_slice()[..self.used]
    }
}
