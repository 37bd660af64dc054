//! Rows that are put into cases.

ghost use Rattle.std.specs.Prelude.{◌≡◌, ℕ, ℤ, List, [], ◌∷◌, ◌++◌, true, length, IfOk, OnOk};
ghost use Rattle.plc_rows.specs.Rows.{case_number};
ghost use Rattle.plc_rows.specs.Standing.{AreCut, AreWhole};

use crate::row::{Cases, Row, Rows};
use cif_base::{Items, Memory};
use std::alloc::Global;
use std::mem;

/// The cases that have ended, and the rows of the last one.
#[derive(Drop)]
pub struct Casing {
    whole: Items<Rows>,
    last: Items<Row>,
}

impl Casing {
    /// No case.
    pub fn new(alloc: Global) -> Casing
        ensures { result ≡ record { whole = []; last = [] } }
    {
        Casing {
            whole: Items::new(alloc),
            last: Items::new(alloc),
        }
    }

    /// Whether a row with that number may come next: it begins a case or goes on with the last one.
    pub fn may_have(&self, number: u32) -> bool
        ensures { result ≡ case_number.follows (length self.now.last) number }
    {
        number == 1 || number > 1 && number as usize - 1 == self.last.len()
    }

    /// Puts the next row, which has that number.
    pub fn put(&mut self, alloc: Global, number: u32, row: Row) -> Result<(), Memory>
        requires { case_number.follows (length self.old.last) number ≡ true }
        ensures cut { OnOk result ((rows : List (List ℤ)) (numbers : List ℕ) → AreCut rows numbers self.old →
            AreCut (rows ++ row.cells ∷ []) (numbers ++ number ∷ []) self.new) }
        ensures last { OnOk result (length self.new.last ≡ number) }
    {
        if number == 1 && !self.last.is_empty() {
            let rows = mem::replace(&mut self.last, Items::new(alloc));
            self.whole.push(Rows { rows })?;
        }
        self.last.push(row)
    }

    /// All cases, the last one too.
    pub fn into_cases(self) -> Result<Cases, Memory>
        ensures { IfOk result (λ c. (rows : List (List ℤ)) (numbers : List ℕ) → AreCut rows numbers self → AreWhole rows numbers c) }
    {
        let Casing { mut whole, last } = self;
        if !last.is_empty() {
            whole.push(Rows { rows: last })?;
        }
        Ok(Cases { cases: whole })
    }
}
