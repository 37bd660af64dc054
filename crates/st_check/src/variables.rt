//! The checks of declarations: names that differ, types, and first values.

ghost use Rattle.std.specs.Prelude.{◌≡◌, ◌<◌, ◌^◌, ◌&&◌, [], length, IfOk};
ghost use Rattle.st_ast.specs.Checks as checks;
ghost use Rattle.st_check.specs.Keys as keys;
ghost use Rattle.st_check.specs.Outcome.{Tells};

use crate::error::StCheckErr;
use crate::names::Names;
use st_ast::{StLit, StTy, StVar};
use std::alloc::Global;

fn is_type(ty: StTy) -> bool
    ensures { result ≡ checks.is_type ty }
{
    match ty {
        StTy::Bool => true,
        StTy::Lint => true,
        StTy::Range { lo, hi } => lo <= hi,
    }
}

fn has_type(ty: StTy, value: StLit) -> bool
    ensures { result ≡ checks.has_type ty value }
{
    match (ty, value) {
        (StTy::Bool, StLit::Bool(_)) => true,
        (StTy::Lint, StLit::Int(_)) => true,
        (StTy::Range { lo, hi }, StLit::Int(number)) => lo <= number && number <= hi,
        (StTy::Bool, StLit::Int(_)) => false,
        (StTy::Lint, StLit::Bool(_)) => false,
        (StTy::Range { lo: _, hi: _ }, StLit::Bool(_)) => false,
    }
}

/// Whether the type of a variable is one, and its first value one of the type.
fn starts_well(var: &StVar) -> bool
    ensures { result ≡ (checks.is_type var.now.ty && checks.starts_well var.now.ty var.now.init) }
{
    match var.init {
        None => is_type(var.ty),
        Some(value) => is_type(var.ty) && has_type(var.ty, value),
    }
}

/// Checks the variables in the order of declaration. Answers their names.
pub fn check_variables(alloc: Global, vars: &[StVar]) -> Result<Names, StCheckErr>
    requires { length vars.now < 2 ^ 32 }
    ensures tells { Tells result (checks.variables_faults [] 0 vars.now) }
    ensures names { IfOk result (λ names. names ≡ keys.keys_of vars.now) }
{
    let mut names = Names::new(alloc);
    for (i, var) in vars.iter().enumerate() {
        if !names.add(alloc, var.name.as_slice())? {
            return Err(StCheckErr::StDuplicate { variable: i as u32 });
        }
        if !starts_well(var) {
            return Err(StCheckErr::StInitRange { variable: i as u32 });
        }
    }
    Ok(names)
}
