//! A program that breaks no check.

ghost use Rattle.std.specs.Prelude.{◌≡◌, ◌<◌, ◌^◌, [], length, IfOk, IfErr};
ghost use Rattle.st_ast.specs.Checks.{check_faults, stms_count};
ghost use Rattle.st_ast.specs.Interface.{is_output, numbers_of, is_input};
ghost use Rattle.st_ast.specs.View.{view, view_stmts};
ghost use Rattle.st_check.specs.Told.{IsFirst, IsPlace};
ghost use Rattle.st_check.specs.PlacedView.{stmts_view};
ghost use Rattle.st_check.specs.Placing.{placed_stms};

use crate::PlacedStmt;
use crate::error::StCheckErr;
use crate::names::Names;
use crate::rows::{Row, numbers};
use crate::scope::Scope;
use crate::statements::check_body;
use crate::variables::check_variables;
use cif_base::{Items, Memory};
use st_ast::Program;
use std::alloc::Global;
use std::marker::Model;

/// A program that breaks no check, with its statements placed, the numbers of its inputs and outputs, and its variables by
/// their names.
#[derive(Drop)]
pub struct Checked {
    program: Program,
    // the statements of the program with its names resolved
    body: Items<PlacedStmt>,
    inputs: Vec<u32>,
    outputs: Vec<u32>,
    names: Names,
}

impl Model for Checked {
    ghost use Rattle.std.specs.Prelude.{◌≡◌, ◌<◌, ◌^◌, [], length};
    ghost use Rattle.std.specs.Coded.{codes};
    ghost use Rattle.st_ast.specs.Checks.{check_faults};
    ghost use Rattle.st_ast.specs.Interface.{is_output, numbers_of, is_input};
    ghost use Rattle.st_ast.specs.View as tree;
    ghost use Rattle.st_ast.specs.declared.tree.Program.{Program};
    ghost use Rattle.st_ast.specs.contracts.tree.Stmt as statement;
    ghost use Rattle.st_check.specs.Keys.{keys_of};
    ghost use Rattle.st_check.specs.PlacedView.{stmts_view};
    ghost use Rattle.st_check.specs.Placing.{placed_stms};

    ghost Value = { Program };

    ghost coded = { Prim.hlevel (codes, statement.the_row.coded) };

    ghost view = { λ c. c.program };

    ghost invariant = { λ c. (length c.program.vars < 2 ^ 32)
        × (check_faults (tree.view c.program) ≡ [])
        × (stmts_view c.body ≡ placed_stms c.program.vars (tree.view_stmts c.program.body))
        × (c.inputs.items ≡ numbers_of is_input 0 c.program.vars)
        × (c.outputs.items ≡ numbers_of is_output 0 c.program.vars)
        × (c.names ≡ keys_of c.program.vars) };
}

impl Checked {
    /// The program.
    pub fn program(&self) -> &Program
        ensures same { result.now ≡ self.now }
        ensures few { length self.now.vars < 2 ^ 32 }
        ensures checked { check_faults (view self.now) ≡ [] }
    {
        &self.program
    }

    /// The statements of the program with its names resolved.
    pub fn placed_body(&self) -> &[PlacedStmt]
        ensures { stmts_view result.now ≡ placed_stms self.now.vars (view_stmts self.now.body) }
    {
        self.body.as_slice()
    }

    /// The numbers of the inputs, in the order of declaration.
    #[tactic(auto, using(crate::proofs::Numbers::numbers_are_few))]
    pub fn inputs(&self) -> &[u32]
        ensures numbers { result.now ≡ numbers_of is_input 0 self.now.vars }
        ensures few { length result.now < 2 ^ 32 }
    {
        self.inputs.as_slice()
    }

    /// The numbers of the outputs, in the order of declaration.
    #[tactic(auto, using(crate::proofs::Numbers::numbers_are_few))]
    pub fn outputs(&self) -> &[u32]
        ensures numbers { result.now ≡ numbers_of is_output 0 self.now.vars }
        ensures few { length result.now < 2 ^ 32 }
    {
        self.outputs.as_slice()
    }

    /// The number of the variable that a name stands for, found through a map, the case of letters ignored.
    pub fn find(&self, alloc: Global, name: &[u8]) -> Result<Option<u32>, Memory>
        ensures { IfOk result (λ found. IsPlace self.now.vars name.now found) }
    {
        Scope::new(self.program.vars.as_slice(), &self.names).find(alloc, name)
    }
}

/// Checks a program. The first broken check is told, in the order of the variables and then of the statements.
#[tactic(auto, using(crate::proofs::Firsts::fronts))]
pub fn check_program(alloc: Global, program: Program) -> Result<Checked, StCheckErr>
    requires variables { length program.vars < 2 ^ 32 }
    requires statements { stms_count (view_stmts program.body) < 2 ^ 32 }
    ensures checked { IfOk result (λ c. (c ≡ program) × (check_faults (view program) ≡ [])) }
    ensures refused { IfErr result (λ e. IsFirst e (check_faults (view program))) }
{
    let vars = program.vars.as_slice();
    let names = check_variables(alloc, vars)?;
    let mut body = Vec::with_capacity(alloc, program.body.len())?;
    let scope = Scope::new(vars, &names);
    check_body(alloc, &scope, program.body.as_slice(), 0, &mut body)?;
    let inputs = numbers(alloc, Row::Inputs, vars)?;
    let outputs = numbers(alloc, Row::Outputs, vars)?;
    Ok(Checked {
        program,
        body: Items::from_vec(body),
        inputs,
        outputs,
        names,
    })
}
