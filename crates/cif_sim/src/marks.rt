//! Marks of numbers in groups, so that the next one that is on is found without going over all.

ghost use Rattle.std.specs.Prelude.{◌≡◌, ◌<◌, ◌≤◌, ◌/◌, ℕ, ◌^◌, Bool, List, true, false, length, replicate, slice_set, IfOk};
ghost use Rattle.cif_sim.specs.Marks.{AreGrouped, is_on, woken_one};

use cif_base::Memory;
use std::alloc::Global;
use std::marker::Model;

/// The number of marks in a group.
const GROUP: usize = 256;

/// A mark for each number below `count`. A group whose mark is off has no mark that is on.
#[derive(Drop)]
pub(crate) struct Marks {
    count: u32,
    marks: Vec<bool>,
    groups: Vec<bool>,
}

impl Model for Marks {
    ghost use Rattle.std.specs.Prelude.{Bool, List};
    ghost use Rattle.cif_sim.specs.Marks.{AreMarks};

    ghost Value = { List Bool };

    ghost view = { λ x. x.marks.items };

    ghost invariant = { λ x. AreMarks x.count x.marks.items x.groups.items };
}

impl Marks {
    /// All marks are on.
    pub(crate) fn new(alloc: Global, count: u32) -> Result<Marks, Memory>
        ensures { IfOk result (λ marks. marks ≡ replicate count true) }
    {
        let marks = all_on(alloc, count as usize)?;
        let groups = all_on(alloc, count as usize / GROUP + 1)?;
        Ok(Marks {
            count,
            marks,
            groups,
        })
    }

    /// The number of marks.
    pub(crate) fn count(&self) -> u32
        ensures { result ≡ length self.now }
    {
        self.count
    }

    /// Turns the mark of a number on, or all marks where it is not below the count.
    pub(crate) fn wake(&mut self, number: u32)
        ensures { self.new ≡ woken_one number self.old }
    {
        if number < self.count {
            self.marks[number as usize] = true;
            mark(&mut self.groups, number as usize / GROUP, true);
        } else {
            fill(&mut self.marks);
            fill(&mut self.groups);
        }
    }

    /// Turns the mark of a number off.
    pub(crate) fn sleep(&mut self, number: u32)
        requires { number < length self.old }
        ensures { self.new ≡ slice_set self.old number false }
    {
        self.marks[number as usize] = false;
        let group = number as usize / GROUP;
        if is_group_off(&self.marks, group) {
            mark(&mut self.groups, group, false);
        }
    }

    /// The lowest number from `from` on whose mark is on, or the count.
    pub(crate) fn next(&self, from: u32) -> u32
        requires { from ≤ length self.now }
        ensures from { from ≤ result }
        ensures within { result ≤ length self.now }
        ensures passed { (k : ℕ) → from ≤ k → k < result → is_on self.now k ≡ false }
    {
        let count = self.count as usize;
        let next = next_on(&self.marks, &self.groups, from as usize);
        prove!(next <= count);
        next as u32
    }
}

/// As many marks, all on.
fn all_on(alloc: Global, count: usize) -> Result<Vec<bool>, Memory>
    ensures { IfOk result (λ marks. marks.items ≡ replicate count true) }
{
    let mut marks = Vec::new(alloc);
    marks.resize(count, true)?;
    Ok(marks)
}

/// Turns all marks on.
fn fill(marks: &mut [bool])
    ensures { marks.new ≡ replicate (length marks.old) true }
{
    marks.fill(true);
}

/// Sets a mark, where there is one.
#[tactic(auto, using(std::proofs::lemmas::List::set_past))]
fn mark(marks: &mut [bool], at: usize, on: bool)
    ensures { marks.new ≡ slice_set marks.old at on }
{
    if at < marks.len() {
        marks[at] = on;
    }
}

/// Whether no mark of a group is on.
fn is_group_off(marks: &[bool], group: usize) -> bool
    requires { group < 2 ^ 32 }
    ensures { result ≡ true → (k : ℕ) → k / 256 ≡ group → is_on marks.now k ≡ false }
{
    let from = group * GROUP;
    let to = (from + GROUP).min(marks.len());
    for at in (from..to).rev() {
        if marks[at] {
            return false;
        }
    }
    true
}

/// The lowest number from `from` on whose mark is on, or the number of marks. Groups whose mark is off are passed over.
fn next_on(marks: &[bool], groups: &[bool], from: usize) -> usize
    requires grouped { AreGrouped marks.now groups.now }
    requires from { from ≤ length marks.now }
    ensures from { from ≤ result }
    ensures within { result ≤ length marks.now }
    ensures passed { (k : ℕ) → from ≤ k → k < result → is_on marks.now k ≡ false }
{
    let mut at = from;
    while at < marks.len() && !marks[at] {
        at = behind(groups, at);
    }
    at.min(marks.len())
}

/// The number behind one whose mark is off, or behind its group.
fn behind(groups: &[bool], at: usize) -> usize
    requires { at < 2 ^ 63 }
    ensures above { at < result }
    ensures passed { (marks : List Bool) (k : ℕ) → AreGrouped marks groups.now → is_on marks at ≡ false → at ≤ k → k < result → is_on marks k ≡ false }
{
    let group = at / GROUP;
    if group < groups.len() && !groups[group] {
        (group + 1) * GROUP
    } else {
        at + 1
    }
}
