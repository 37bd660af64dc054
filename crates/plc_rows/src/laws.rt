//! Laws on rows and cases.

ghost use Rattle.std.specs.Prelude.{◌≡◌, ◌≤◌, ℤ, List, length};
ghost use Rattle.std.specs.List.{AllByRecursion};
ghost use Rattle.grammar.specs.Pieces.{Text};
ghost use Rattle.st_ast.specs.declared.tree.StVar.{StVar};
ghost use Rattle.plc_rows.specs.Rows.{AreCasesFor, AreRowsFor, CasesOf, RowsOf, most_rows};

/// Rows of a text that breaks no rule of a program are rows in range for it.
#[tactic(auto, using(crate::proofs::InRange::ranges))]
pub fn rows_are_in_range()
    ensures { (vars : List StVar) (text : Text) (rows : List (List ℤ)) → RowsOf vars text rows → AreRowsFor vars rows }
{}

/// Cases of a text that breaks no rule of a program are cases in range for it, and they and the rows of each are few.
#[tactic(auto, using(crate::proofs::CaseLaws::cases))]
pub fn cases_are_in_range()
    ensures range { (vars : List StVar) (text : Text) (cases : List (List (List ℤ))) → CasesOf vars text cases → AreCasesFor vars cases }
    ensures few { (vars : List StVar) (text : Text) (cases : List (List (List ℤ))) → CasesOf vars text cases → length cases ≤ most_rows }
    ensures few_rows { (vars : List StVar) (text : Text) (cases : List (List (List ℤ))) → CasesOf vars text cases →
        AllByRecursion (λ (rows : List (List ℤ)). length rows ≤ most_rows) cases }
{}

/// A text has one list of cases.
#[tactic(auto, using(crate::proofs::CaseLaws::cases))]
pub fn cases_are_one()
    ensures { (vars : List StVar) (text : Text) (a b : List (List (List ℤ))) → CasesOf vars text a → CasesOf vars text b → a ≡ b }
{}
