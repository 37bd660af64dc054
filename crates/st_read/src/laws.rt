//! Laws of the texts that are read.

ghost use Rattle.std.specs.Prelude.{◌≡◌, ◌≤◌, length};
ghost use Rattle.grammar.specs.Pieces.{Text};
ghost use Rattle.st_ast.specs.Checks.{stms_count};
ghost use Rattle.st_ast.specs.ReadsAs.{ReadsAsProgram, Derives};
ghost use Rattle.st_ast.specs.Tree as tree;
ghost use Rattle.st_read.specs.Refusals.{RefusalDue};
ghost use Rattle.st_read.specs.declared.error.StErr.{StErr};
ghost use Rattle.st_read.specs.declared.error.StErr.TheVariants.{Memory as no_memory};

/// A text reads as at most one program.
pub fn one_program()
    ensures { (text : Text) (p q : tree.Program) → ReadsAsProgram text p → ReadsAsProgram text q → p ≡ q }
{}

/// A text that is refused for another cause than want of memory derives no program.
pub fn no_program_where_refused()
    ensures { (text : Text) (why : StErr) → RefusalDue text why → (why ≡ no_memory → ⊥)
        → (p : tree.Program) → Derives text p → ⊥ }
{}

/// The variables and the statements of a program number at most the bytes of its text.
pub fn programs_are_small()
    ensures { (text : Text) (p : tree.Program) → Derives text p
        → (length p.vars ≤ length text) × (stms_count p.body ≤ length text) }
{}
