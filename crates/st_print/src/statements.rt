//! How statements are printed.

ghost use Rattle.std.specs.Prelude.{◌≡◌, ◌+◌, ◌∷◌, List, codes, OnOk, IfOk};
ghost use Rattle.st_ast.specs.View.{view_stmt, view_stmts, view_branch, view_branches};
ghost use Rattle.st_print.specs.Layout.{Mark, line, word, sign, stm_marks, stms_marks, branches_marks};
ghost use Rattle.st_print.specs.Printing.{so_far, branch_marks};

use crate::printer::Printer;
use cif_base::Memory;
use st_ast::{StBranch, Stmt};

impl Printer {
    /// Prints statements, from an indentation (IEC 61131-3, "Statements").
    #[cycle(statement)]
    pub fn statements(&mut self, statements: &[Stmt], depth: usize) -> Result<(), Memory>
        ensures { OnOk result ((ms : List Mark) →
            so_far self.old (stms_marks depth (view_stmts statements.now) ms) ≡ so_far self.new ms) }
    {
        for statement in statements {
            self.statement(statement, depth)?;
        }
        Ok(())
    }

    #[cycle(statement)]
    fn statement(&mut self, statement: &Stmt, depth: usize) -> Result<(), Memory>
        ensures { OnOk result ((ms : List Mark) →
            so_far self.old (stm_marks depth (view_stmt statement.now) ms) ≡ so_far self.new ms) }
    {
        match statement {
            Stmt::Assign { target, value } => {
                self.line(depth)?;
                self.word(target.as_slice())?;
                self.sign(b":=")?;
                self.expression(value)?;
                self.sign(b";")
            }
            Stmt::If { branches, other } => {
                self.branches(branches.as_slice(), depth)?;
                if let Some(last) = other {
                    self.line(depth)?;
                    self.word(b"ELSE")?;
                    self.statements(last.as_slice(), deeper(depth)?)?;
                }
                self.closing(b"END_IF", depth)
            }
            Stmt::While { cond, body } => {
                self.line(depth)?;
                self.word(b"WHILE")?;
                self.expression(cond)?;
                self.word(b"DO")?;
                self.statements(body.as_slice(), deeper(depth)?)?;
                self.closing(b"END_WHILE", depth)
            }
        }
    }

    /// Prints branches: the first begins with `IF`, and the others with `ELSIF`.
    #[cycle(statement)]
    fn branches(&mut self, branches: &[StBranch], depth: usize) -> Result<(), Memory>
        ensures { OnOk result ((ms : List Mark) →
            so_far self.old (branches_marks (codes "IF") depth (view_branches branches.now) ms) ≡ so_far self.new ms) }
    {
        let mut keyword: &[u8] = b"IF";
        for branch in branches {
            self.branch(branch, keyword, depth)?;
            keyword = b"ELSIF";
        }
        Ok(())
    }

    #[cycle(statement)]
    fn branch(&mut self, branch: &StBranch, keyword: &[u8], depth: usize) -> Result<(), Memory>
        ensures { OnOk result ((ms : List Mark) →
            so_far self.old (branch_marks keyword.now depth (view_branch branch.now) ms) ≡ so_far self.new ms) }
    {
        self.line(depth)?;
        self.word(keyword)?;
        self.expression(&branch.cond)?;
        self.word(b"THEN")?;
        self.statements(branch.body.as_slice(), deeper(depth)?)
    }

    /// Prints the line that closes a statement.
    fn closing(&mut self, keyword: &[u8], depth: usize) -> Result<(), Memory>
        ensures { OnOk result ((ms : List Mark) →
            so_far self.old (line depth ∷ word keyword.now ∷ sign (codes ";") ∷ ms) ≡ so_far self.new ms) }
    {
        self.line(depth)?;
        self.word(keyword)?;
        self.sign(b";")
    }
}

/// One nesting more. No memory holds a line with as many as there are numbers.
fn deeper(depth: usize) -> Result<usize, Memory>
    ensures { IfOk result (λ inner. inner ≡ depth + 1) }
{
    depth.checked_add(1).ok_or(Memory)
}
