//! How declarations and whole programs are printed.

ghost use Rattle.std.specs.Prelude.{◌≡◌, ◌∷◌, List, OnOk, IfOk};
ghost use Rattle.st_ast.specs.ReadsAs.{ReadsBack};
ghost use Rattle.st_ast.specs.View.{view};
ghost use Rattle.st_print.specs.Layout.{Mark, line, word, type_marks, literal_marks, init_marks, declaration_marks, block_marks, same_class, further_marks, variables_marks, printed};
ghost use Rattle.st_print.specs.Printing.{so_far};

use crate::printer::Printer;
use cif_base::Memory;
use st_ast::{Program, StClass, StLit, StTy, StVar};
use std::alloc::Global;

/// The layout of a program.
fn laid_out(alloc: Global, program: &Program) -> Result<Vec<u8>, Memory>
    ensures { IfOk result (λ text. text.items ≡ printed (view program.now)) }
{
    let mut printer = Printer::new(alloc);
    printer.word(b"PROGRAM")?;
    printer.word(program.name.as_slice())?;
    printer.variables(program.vars.as_slice())?;
    printer.statements(program.body.as_slice(), 0)?;
    printer.keyword_line(b"END_PROGRAM")?;
    printer.line(0)?;
    Ok(printer.into_bytes())
}

/// The printed text of a program (IEC 61131-3, "Structured Text"): keywords in capitals, one blank between tokens, a line
/// for each declaration and statement, two blanks for each nesting. It reads as the program, and as no other.
pub fn print(alloc: Global, program: &Program) -> Result<Vec<u8>, Memory>
    ensures laid_out { IfOk result (λ text. text.items ≡ printed (view program.now)) }
    ensures read_again { IfOk result (λ text. ReadsBack text.items (view program.now)) }
{
    laid_out(alloc, program)
}

impl Printer {
    /// Prints one block for each longest run of variables of one class.
    fn variables(&mut self, variables: &[StVar]) -> Result<(), Memory>
        ensures { OnOk result ((ms : List Mark) →
            so_far self.old (variables_marks variables.now ms) ≡ so_far self.new ms) }
    {
        match variables {
            [] => Ok(()),
            [first, further @ ..] => {
                self.block(first.class)?;
                self.declaration(first)?;
                self.further(further, first.class)
            }
        }
    }

    /// Prints the further variables of an open block of a class.
    fn further(&mut self, variables: &[StVar], class: StClass) -> Result<(), Memory>
        ensures { OnOk result ((ms : List Mark) →
            so_far self.old (further_marks class variables.now ms) ≡ so_far self.new ms) }
    {
        let mut open = class;
        for variable in variables {
            if !is_same_class(open, variable.class) {
                self.keyword_line(b"END_VAR")?;
                self.block(variable.class)?;
                open = variable.class;
            }
            self.declaration(variable)?;
        }
        self.keyword_line(b"END_VAR")
    }

    /// Prints the line that begins a block.
    fn block(&mut self, class: StClass) -> Result<(), Memory>
        ensures { OnOk result ((ms : List Mark) →
            so_far self.old (block_marks class ms) ≡ so_far self.new ms) }
    {
        match class {
            StClass::Plain => self.keyword_line(b"VAR"),
            StClass::Constant => {
                self.keyword_line(b"VAR")?;
                self.word(b"CONSTANT")
            }
            StClass::Input => self.keyword_line(b"VAR_INPUT"),
            StClass::Output => self.keyword_line(b"VAR_OUTPUT"),
        }
    }

    fn declaration(&mut self, variable: &StVar) -> Result<(), Memory>
        ensures { OnOk result ((ms : List Mark) →
            so_far self.old (declaration_marks variable.now ms) ≡ so_far self.new ms) }
    {
        self.line(1)?;
        self.word(variable.name.as_slice())?;
        self.sign(b":")?;
        self.variable_type(variable.ty)?;
        self.init(variable.init)?;
        self.sign(b";")
    }

    fn variable_type(&mut self, ty: StTy) -> Result<(), Memory>
        ensures { OnOk result ((ms : List Mark) →
            so_far self.old (type_marks ty ms) ≡ so_far self.new ms) }
    {
        match ty {
            StTy::Bool => self.word(b"BOOL"),
            StTy::Lint => self.word(b"LINT"),
            StTy::Range { lo, hi } => {
                self.word(b"LINT")?;
                self.sign(b"(")?;
                self.number(lo)?;
                self.sign(b"..")?;
                self.number(hi)?;
                self.sign(b")")
            }
        }
    }

    /// Prints the first value, if there is one.
    fn init(&mut self, init: Option<StLit>) -> Result<(), Memory>
        ensures { OnOk result ((ms : List Mark) →
            so_far self.old (init_marks init ms) ≡ so_far self.new ms) }
    {
        match init {
            None => Ok(()),
            Some(value) => {
                self.sign(b":=")?;
                self.literal(value)
            }
        }
    }

    fn literal(&mut self, literal: StLit) -> Result<(), Memory>
        ensures { OnOk result ((ms : List Mark) →
            so_far self.old (literal_marks literal ms) ≡ so_far self.new ms) }
    {
        match literal {
            StLit::Bool(value) => self.truth(value),
            StLit::Int(value) => self.number(value),
        }
    }

    /// Begins a line with a keyword.
    fn keyword_line(&mut self, keyword: &[u8]) -> Result<(), Memory>
        ensures { OnOk result ((ms : List Mark) →
            so_far self.old (line 0 ∷ word keyword.now ∷ ms) ≡ so_far self.new ms) }
    {
        self.line(0)?;
        self.word(keyword)
    }
}

fn is_same_class(left: StClass, right: StClass) -> bool
    ensures { result ≡ same_class left right }
{
    left == right
}
