//! How many statements a program has.

ghost use Rattle.std.specs.Prelude.{◌≡◌, ◌+◌, IfSome};
ghost use Rattle.st_ast.specs.Checks.{stm_count, stms_count, branches_count};
ghost use Rattle.st_ast.specs.View.{view_stmt, view_stmts, view_branches};

use st_ast::{StBranch, Stmt};

/// How many statements there are, after so many others.
#[cycle(count)]
pub fn count(body: &[Stmt], others: u32) -> Option<u32>
    ensures { IfSome result (λ n. n ≡ others + stms_count (view_stmts body.now)) }
{
    let mut so_far = others;
    for stmt in body {
        so_far = count_one(stmt, so_far)?;
    }
    Some(so_far)
}

#[cycle(count)]
fn count_one(stmt: &Stmt, others: u32) -> Option<u32>
    ensures { IfSome result (λ n. n ≡ others + stm_count (view_stmt stmt.now)) }
{
    let so_far = others.checked_add(1)?;
    match stmt {
        Stmt::Assign {
            target: _,
            value: _,
        } => Some(so_far),
        Stmt::If { branches, other } => {
            let so_far = count_branches(branches.as_slice(), so_far)?;
            match other {
                Some(body) => count(body.as_slice(), so_far),
                None => Some(so_far),
            }
        }
        Stmt::While { cond: _, body } => count(body.as_slice(), so_far),
    }
}

#[cycle(count)]
fn count_branches(branches: &[StBranch], others: u32) -> Option<u32>
    ensures { IfSome result (λ n. n ≡ others + branches_count (view_branches branches.now)) }
{
    let mut so_far = others;
    for branch in branches {
        so_far = count(branch.body.as_slice(), so_far)?;
    }
    Some(so_far)
}
