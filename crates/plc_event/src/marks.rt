//! Marks on variables, by number, with which each variable of a list is taken once.

ghost use Rattle.std.specs.Prelude.{◌≡◌, ◌≤◌, ◌||◌, ◌++◌, ◌∷◌, ℕ, [], false, filter, nat_eq, not, slice_get, if◌then◌else◌, IfOk, OnOk, Some};
ghost use Rattle.cif_net_model.specs.Facts.{has};
ghost use Rattle.plc_event_model.specs.Acts.{once};
ghost use Rattle.plc_event.specs.Marked.{is_marked};

use cif_base::{Items, Memory};
use std::alloc::Global;

/// For each variable the last round in which it was marked. Those marked in this round are marked.
#[derive(Drop)]
pub struct Marks {
    pub last: Items<u32>,
    pub round: u32,
    pub ghost past: { (v r : ℕ) → slice_get last v ≡ Some r → r ≤ round },
}

impl Marks {
    /// Marks for `count` variables.
    pub(crate) fn new(alloc: Global, count: usize) -> Result<Marks, Memory> {
        let last = Items::filled(alloc, 0, count)?;
        Ok(Marks { last, round: 0 })
    }

    /// Begins a round, in which no variable is marked; `Memory` beyond 32 bits.
    pub(crate) fn restart(&mut self) -> Result<(), Memory>
        ensures { OnOk result ((v : ℕ) → is_marked self.new.round self.new.last v ≡ false) }
    {
        let Some(round) = self.round.checked_add(1) else {
            return Err(Memory);
        };
        self.round = round;
        Ok(())
    }

    /// Marks a variable, and returns whether it was unmarked. A variable that is not in the table is reported as `Memory`; no
    /// choice has one.
    fn mark(&mut self, variable: u32) -> Result<bool, Memory>
        ensures fresh { IfOk result (λ b. b ≡ not (is_marked self.old.round self.old.last variable)) }
        ensures marks { OnOk result ((v : ℕ) → is_marked self.new.round self.new.last v ≡ (nat_eq v variable || is_marked self.old.round self.old.last v)) }
    {
        let at = variable as usize;
        if at >= self.last.len() {
            return Err(Memory);
        }
        let before = self.last.replace(at, self.round);
        Ok(before != self.round)
    }

    /// Takes the mark from a variable. A variable that is not in the table, and a call before the first round, are reported as
    /// `Memory`.
    fn unmark(&mut self, variable: u32) -> Result<(), Memory>
        ensures { OnOk result ((v : ℕ) → is_marked self.new.round self.new.last v ≡ (if nat_eq v variable then false else is_marked self.old.round self.old.last v)) }
    {
        let at = variable as usize;
        if at >= self.last.len() {
            return Err(Memory);
        }
        let Some(earlier) = self.round.checked_sub(1) else {
            return Err(Memory);
        };
        self.last.set(at, earlier);
        Ok(())
    }

    /// Marks a variable, or takes its mark.
    pub(crate) fn turn(&mut self, variable: u32, is_on: bool) -> Result<(), Memory>
        ensures { OnOk result ((v : ℕ) → is_marked self.new.round self.new.last v ≡ (if nat_eq v variable then is_on else is_marked self.old.round self.old.last v)) }
    {
        if !is_on {
            return self.unmark(variable);
        }
        self.mark(variable)?;
        Ok(())
    }

    /// Whether a variable is marked.
    pub(crate) fn has(&self, variable: u32) -> bool
        ensures { result ≡ is_marked self.now.round self.now.last variable }
    {
        match self.last.get(variable as usize) {
            Some(round) => *round == self.round,
            None => false,
        }
    }

    /// Marks a variable, and adds it to `found` if it was unmarked.
    fn meet(&mut self, variable: u32, found: &mut Items<u32>) -> Result<(), Memory>
        ensures found { OnOk result (found.new ≡ (if is_marked self.old.round self.old.last variable then found.old else found.old ++ variable ∷ [])) }
        ensures marks { OnOk result ((v : ℕ) → is_marked self.new.round self.new.last v ≡ (nat_eq v variable || is_marked self.old.round self.old.last v)) }
    {
        if self.mark(variable)? {
            found.push(variable)?;
        }
        Ok(())
    }

    /// Begins a round in which these variables are marked.
    pub(crate) fn start_with(&mut self, variables: &[u32]) -> Result<(), Memory>
        ensures { OnOk result ((v : ℕ) → is_marked self.new.round self.new.last v ≡ has variables.now v) }
    {
        self.restart()?;
        for variable in variables {
            self.mark(*variable)?;
        }
        Ok(())
    }
}

/// Each variable of a list once, in the order of the list.
pub(crate) fn once_of(
    alloc: Global,
    variables: &[u32],
    marks: &mut Marks,
) -> Result<Items<u32>, Memory>
    ensures { IfOk result (λ found. found ≡ once [] variables.now) }
{
    marks.restart()?;
    let mut found = Items::new(alloc);
    for variable in variables {
        marks.meet(*variable, &mut found)?;
    }
    Ok(found)
}

/// The variables of a list that are not among others.
pub(crate) fn without(
    alloc: Global,
    variables: &[u32],
    others: &[u32],
    marks: &mut Marks,
) -> Result<Items<u32>, Memory>
    ensures { IfOk result (λ found. found ≡ filter (λ v. not (has others.now v)) variables.now) }
{
    marks.start_with(others)?;
    let mut found = Items::new(alloc);
    for variable in variables {
        if !marks.has(*variable) {
            found.push(*variable)?;
        }
    }
    Ok(found)
}
