//! From the text of a program to the checked program, or why it is refused.

ghost use Rattle.std.specs.Prelude.{◌≡◌, ◌≤◌, ℕ, Some, length, IfOk, IfErr};
ghost use Rattle.st_ast.specs.ReadsAs.{ReadsAsProgram, Derives};
ghost use Rattle.st_ast.specs.Tree.{Program};
ghost use Rattle.st_ast.specs.View.{view};
ghost use Rattle.cif_run.specs.Groups.{IsUnlessMemory};
ghost use Rattle.cif_replay.specs.Told.{variable_of_check};
ghost use Rattle.cif_replay.specs.Ends.{IsNamedBy, StEnds};
ghost use Rattle.cif_replay.specs.Refusals.{check_status_of, st_status_of};
ghost use Rattle.cif_replay.specs.Replaying.{name_at};

use cif_base::{Memory, Text};
use cif_run::{Ended, StRefusal, Status};
use st_ast::StVar;
use st_check::{Checked, StCheckErr, check_program};
use st_read::{StErr, read};
use std::alloc::Global;

/// How a call ends whose text is not read.
fn st_status(error: StErr) -> Status
    ensures { result ≡ st_status_of error }
{
    match error {
        StErr::Memory => Status::Memory,
        why => Status::StRefused {
            why: StRefusal::Text(why),
        },
    }
}

/// How a call ends whose program breaks a check.
fn check_status(error: StCheckErr) -> Status
    ensures { result ≡ check_status_of error }
{
    match error {
        StCheckErr::Memory => Status::Memory,
        why => Status::StRefused {
            why: StRefusal::Check(why),
        },
    }
}

/// The name of the variable with this number.
pub fn name_of(alloc: Global, vars: &[StVar], number: u32) -> Result<Text, Memory>
    ensures { IfOk result (λ name. name ≡ name_at vars.now number) }
{
    match vars.get(number as usize) {
        Some(var) => var.name.copy(alloc),
        None => Ok(Text::new(alloc)),
    }
}

/// The number of the variable that a broken check tells of, if it tells of one.
fn variable_of(error: StCheckErr) -> Option<u32>
    ensures { result ≡ variable_of_check error }
{
    match error {
        StCheckErr::StDuplicate { variable } => Some(variable),
        StCheckErr::StInitRange { variable } => Some(variable),
        _ => None,
    }
}

/// The name of the variable that a broken check tells of, if it tells of one. The text is read once more for it.
fn refused_name(alloc: Global, text: &[u8], error: StCheckErr) -> Result<Text, Memory>
    requires { length text.now ≤ 16777216 }
    ensures { IfOk result (λ name. (p : Program) (k : ℕ) → Derives text.now p → variable_of_check error ≡ Some k → name ≡ name_at p.vars k) }
{
    let Some(number) = variable_of(error) else {
        return Ok(Text::new(alloc));
    };
    match read(alloc, text) {
        Ok(program) => name_of(alloc, program.vars.as_slice(), number),
        Err(_) => Err(Memory),
    }
}

/// How a call ends whose program breaks a check.
fn check_ended(alloc: Global, text: &[u8], error: StCheckErr) -> Ended
    requires { length text.now ≤ 16777216 }
    ensures status { IsUnlessMemory result.status (check_status_of error) }
    ensures named { IsNamedBy text.now result.status result.variable }
{
    match refused_name(alloc, text, error) {
        Ok(variable) => Ended {
            status: check_status(error),
            variable,
            limit: 0,
        },
        Err(_) => Ended::plain(alloc, Status::Memory),
    }
}

/// The program that a text reads as.
#[tactic(auto, using(crate::proofs::ReplayLemmas::few_variables, crate::proofs::ReplayLemmas::few_statements, crate::proofs::ReplayLemmas::reads_checked))]
pub fn program_of(alloc: Global, text: &[u8]) -> Result<Checked, Ended>
    requires { length text.now ≤ 16777216 }
    ensures reads { IfOk result (λ c. ReadsAsProgram text.now (view c)) }
    ensures ends { IfErr result (λ e. StEnds text.now e.status) }
    ensures named { IfErr result (λ e. IsNamedBy text.now e.status e.variable) }
{
    let program = match read(alloc, text) {
        Ok(program) => program,
        Err(error) => return Err(Ended::plain(alloc, st_status(error))),
    };
    match check_program(alloc, program) {
        Ok(program) => Ok(program),
        Err(error) => Err(check_ended(alloc, text, error)),
    }
}
