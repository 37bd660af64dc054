//! The statements before an expression, as they are written.

ghost use Rattle.std.specs.Prelude.{◌≡◌, ◌+◌, OnOk, IfOk};

use cif_base::{Items, Memory};
use st_ast::Stmt;

/// The statements so far, and the number of the next own variable.
#[derive(Debug, Drop)]
pub struct Draft {
    pub statements: Items<Stmt>,
    pub next: u32,
}

impl Draft {
    /// The number of a new own variable. Past the last number it is want of memory.
    pub fn take_number(&mut self) -> Result<u32, Memory>
        ensures number { IfOk result (λ k. k ≡ self.old.next) }
        ensures next { OnOk result (self.new.next ≡ self.old.next + 1) }
        ensures statements { self.new.statements ≡ self.old.statements }
    {
        let number = self.next;
        let Some(next) = number.checked_add(1) else {
            return Err(Memory);
        };
        self.next = next;
        Ok(number)
    }
}
