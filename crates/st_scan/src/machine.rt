//! A program with the numbers of its variables.

ghost use Rattle.std.specs.Prelude.{◌≡◌, ◌<◌, ◌^◌, ℕ, length, slice_get, IfOk, OnOk, OnErr, IfErr, map};
ghost use Rattle.st_ast.specs.Exec.{Ended};
ghost use Rattle.st_ast.specs.Interface.{is_output, numbers_of, output_values};
ghost use Rattle.st_ast.specs.Scan.{value_of_literal, first_of, start_memory, scan_of};
ghost use Rattle.st_ast.specs.View.{view};
ghost use Rattle.st_scan.specs.Standing.{Standing};
ghost use Rattle.st_scan.specs.Endings.{stopped, outcome_of};

use crate::error::ScanErr;
use crate::statements::run;
use crate::storing::store;
use cif_base::Memory;
use st_ast::{StLit, StTy, StVar};
use st_check::Checked;
use std::alloc::Global;
use std::marker::Model;

/// The loop turns of one scan.
const TURNS: u32 = 1_000_000;

/// A program and its memory: the number of each variable, in the order of declaration. A BOOL is 0 or 1.
#[derive(Drop)]
pub struct Machine<'a> {
    program: &'a Checked,
    memory: Vec<i64>,
    // what a scan works on, so that one that ends early leaves the memory as it was
    work: Vec<i64>,
}

impl<'a> Model for Machine<'a> {
    ghost use Rattle.std.specs.Prelude.{◌≡◌, ◌<◌, ◌^◌, length};
    ghost use Rattle.std.specs.Coded.{codes};
    ghost use Rattle.st_ast.specs.contracts.tree.Stmt as statement;
    ghost use Rattle.st_scan.specs.Standing.{Standing};

    ghost Value = { Standing };

    ghost coded = { Prim.hlevel (codes, statement.the_row.coded) };

    ghost view = { λ m. record { program = m.program.now; memory = m.memory.items } };

    ghost invariant = { λ m.
        (length m.memory.items ≡ length m.program.now.vars)
        × (length m.work.items ≡ length m.program.now.vars) };
}

impl<'a> Machine<'a> {
    /// The machine at the memory of the declarations. All memory that later calls need is taken here.
    pub fn new(alloc: Global, program: &'a Checked) -> Result<Machine<'a>, Memory>
        ensures { IfOk result (λ m.
            m ≡ record { program = program.now; memory = start_memory (view program.now) }) }
    {
        let tree = program.program();
        let memory = first_values(alloc, tree.vars.as_slice())?;
        let work = first_values(alloc, tree.vars.as_slice())?;
        Ok(Machine {
            program,
            memory,
            work,
        })
    }

    /// Executes the program once, with a row of values for its inputs, in the order of declaration. Where the row is
    /// shorter, the further inputs keep their values.
    pub fn scan(&mut self, row: &[i64]) -> Result<(), ScanErr>
        ensures program { self.new.program ≡ self.old.program }
        ensures ended { OnOk result ((left : ℕ) ×
            (scan_of (view self.old.program) self.old.memory row.now ≡ Ended left self.new.memory)) }
        ensures stopped { IfErr result (λ e.
            scan_of (view self.old.program) self.old.memory row.now ≡ stopped e) }
        ensures kept { OnErr result (self.new.memory ≡ self.old.memory) }
    {
        let mut why = ScanErr::Budget;
        match execute(
            self.program,
            row,
            self.memory.as_slice(),
            self.work.as_mut_slice(),
            &mut why,
        ) {
            Some(_) => {
                std::mem::swap(&mut self.memory, &mut self.work);
                Ok(())
            }
            None => Err(why),
        }
    }

    /// The program that the machine executes.
    pub fn program(&self) -> &'a Checked
        ensures same { result.now ≡ self.now.program }
        ensures sized { length self.now.memory ≡ length self.now.program.vars }
    {
        self.program
    }

    /// The value of the variable with this number, in the order of declaration from 0.
    pub fn value(&self, variable: u32) -> i64
        requires { variable < length self.now.program.vars }
        ensures { slice_get self.now.memory variable ≡ Some result }
    {
        number_at(self.memory.as_slice(), variable)
    }

    /// The value of the k-th output, counted from 0 in the order of declaration.
    #[tactic(auto, using(crate::proofs::Outputs::outputs))]
    pub fn output(&self, k: u32) -> i64
        requires { k < length (numbers_of is_output 0 self.now.program.vars) }
        ensures { slice_get (output_values self.now.program.vars self.now.memory) k ≡ Some result }
    {
        let variable = self.program.outputs()[k as usize];
        self.value(variable)
    }
}

/// The number at a place of a memory.
fn number_at(memory: &[i64], place: u32) -> i64
    requires { place < length memory.now }
    ensures { slice_get memory.now place ≡ Some result }
{
    memory[place as usize]
}

fn number(literal: StLit) -> i64
    ensures { result ≡ value_of_literal literal }
{
    match literal {
        StLit::Bool(truth) => truth as i64,
        StLit::Int(number) => number,
    }
}

/// The first value of a variable: where none is written, FALSE, 0, or the lower limit of its subrange.
fn first_value(var: &StVar) -> i64
    ensures { result ≡ first_of var.now }
{
    match var.init {
        Some(literal) => number(literal),
        None => match var.ty {
            StTy::Bool => 0,
            StTy::Lint => 0,
            StTy::Range { lo, hi: _ } => lo,
        },
    }
}

fn first_values(alloc: Global, vars: &[StVar]) -> Result<Vec<i64>, Memory>
    ensures { IfOk result (λ memory. memory.items ≡ map first_of vars.now) }
{
    let mut memory = Vec::new(alloc);
    for var in vars {
        memory.push(first_value(var))?;
    }
    Ok(memory)
}

/// Executes a program once. The memory after it is left in `work`.
fn execute(
    program: &Checked,
    row: &[i64],
    memory: &[i64],
    work: &mut [i64],
    why: &mut ScanErr,
) -> Option<u32>
    requires memory { length memory.now ≡ length program.now.vars }
    requires work { length work.old ≡ length program.now.vars }
    ensures { scan_of (view program.now) memory.now row.now ≡ outcome_of result why.new work.new }
{
    store(program.inputs(), row, memory, work);
    run(program.placed_body(), work, TURNS, why)
}
