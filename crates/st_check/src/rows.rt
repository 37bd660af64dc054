//! The numbers of the inputs and of the outputs.

ghost use Rattle.std.specs.Prelude.{◌≡◌, ◌<◌, ◌^◌, length, IfOk};
ghost use Rattle.st_ast.specs.Interface.{numbers_of};
ghost use Rattle.st_check.specs.Rows.{is_in};

use cif_base::Memory;
use st_ast::{StClass, StVar};
use std::alloc::Global;

/// The variables that are asked for.
#[derive(Clone, Copy)]
pub enum Row {
    Inputs,
    Outputs,
}

fn is_of(row: Row, class: StClass) -> bool
    ensures { result ≡ is_in row class }
{
    match row {
        Row::Inputs => matches!(class, StClass::Input),
        Row::Outputs => matches!(class, StClass::Output),
    }
}

/// The numbers of the variables of a row, in the order of declaration.
pub fn numbers(alloc: Global, row: Row, vars: &[StVar]) -> Result<Vec<u32>, Memory>
    requires { length vars.now < 2 ^ 32 }
    ensures { IfOk result (λ numbers. numbers.items ≡ numbers_of (is_in row) 0 vars.now) }
{
    let mut numbers = Vec::new(alloc);
    for (i, var) in vars.iter().enumerate() {
        if is_of(row, var.class) {
            numbers.push(i as u32)?;
        }
    }
    Ok(numbers)
}
