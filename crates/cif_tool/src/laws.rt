//! Laws of the commands together, and examples that show that the words of the clauses are inhabited.

ghost use Rattle.std.specs.Prelude.{◌≡◌, ℕ, pos, List, [], ◌∷◌, codes, None};
ghost use Rattle.st_ast.specs.declared.tree.StClass.{StClass};
ghost use Rattle.st_ast.specs.declared.tree.StTy.{StTy};
ghost use Rattle.plc_rows.specs.Rows.{RowsOf};
ghost use Rattle.cif_run.specs.Lines.{line_of};
ghost use Rattle.cif_run.specs.declared.status.Status.{Status};
ghost use Rattle.cif_refusal.specs.declared.refusal.Refusal.{Refusal};
ghost use Rattle.cif_source.specs.Source.{Source};
ghost use Rattle.cif_generate.specs.Words.{IsGenerate};
ghost use Rattle.cif_generate.specs.Meaning.{IsTextOf, meant_by};
ghost use Rattle.cif_tool.specs.Laws.{IsTaken};

/// A text that `generate` wrote is a program for `replay`, which no rule refuses, and of which every scan ends over rows in range, as
/// those of a file are that breaks no rule of the program.
pub fn replay_takes_what_generate_writes()
    ensures { (unc con : ℕ) (t : Source) (text : List ℕ) → IsTextOf unc con t text → IsTaken (meant_by t) text }
{}

/// The words `generate a.cif --unc 3`.
pub fn these_words_ask_for_generate()
    ensures { IsGenerate (codes "generate" ∷ codes "a.cif" ∷ codes "--unc" ∷ codes "3" ∷ [])
        (record { file = codes "a.cif"; unc = 3; con = 100 }) }
{}

/// The line of a source that is refused.
pub fn this_line_is_told()
    ensures { line_of (codes "check" ∷ codes "a.cif" ∷ []) [] 0 (Status.Refused (Refusal.NotRead 5))
        ≡ codes "cif: a.cif: 4 NotRead at 5\n" }
{}

/// Two rows for a program with one input.
pub fn these_rows_are_read()
    ensures { RowsOf (record { name = codes "I0_k"; class = StClass.Input; ty = StTy.Bool; init = None; at = None } ∷ [])
        (codes "I0_k,scan\nTRUE,1\nFALSE,2\n") ((pos 1 ∷ []) ∷ (pos 0 ∷ []) ∷ []) }
{}
