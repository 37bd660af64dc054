//! Cases of copies of the values that programs assign.

use case_text::Fault;
use st_ast::{Program, StExpr, Stmt};
use std::alloc::Global;

/// The value of the first of some statements, if that is an assignment.
fn value_of(statements: &[Stmt]) -> Option<&StExpr> {
    let [Stmt::Assign { value, .. }, ..] = statements else {
        return None;
    };
    Some(value)
}

fn printed(alloc: Global, value: &StExpr) -> Result<String, Fault> {
    Ok(format!(in alloc; "{value:?}")?)
}

fn printed_copy(alloc: Global, value: &StExpr) -> Result<String, Fault> {
    let copy = value.copy(alloc)?;
    printed(alloc, &copy)
}

/// Whether the copy of an expression is printed as the expression is.
fn is_copied(alloc: Global, value: &StExpr) -> Result<bool, Fault> {
    let first = printed(alloc, value)?;
    let second = printed_copy(alloc, value)?;
    Ok(first.as_str() == second.as_str())
}

fn put_copy(alloc: Global, page: &mut String, value: Option<&StExpr>) -> Result<(), Fault> {
    let told = match value {
        None => "  no value\n",
        Some(value) if is_copied(alloc, value)? => "  the same\n",
        Some(_) => "  another\n",
    };
    Ok(page.push_str(told)?)
}

/// `copy PROGRAM`: whether the copy of the value that the first statement assigns is printed as the value is.
pub fn put_copied(alloc: Global, page: &mut String, program: &Program) -> Result<(), Fault> {
    put_copy(alloc, page, value_of(program.body.as_slice()))
}
