//! Laws on the tables of cases.

ghost use Rattle.std.specs.Prelude.{◌≡◌, ℕ, List};
ghost use Rattle.grammar.specs.Pieces.{Text};
ghost use Rattle.st_ast.specs.Tree.{Program};
ghost use Rattle.st_ast.specs.Exec.{Outcome};
ghost use Rattle.cif_batch.specs.CaseTexts.{AreCaseTexts, Case, FirstStopped};

/// Cases have one list of tables, or one first case that stops, and not both: so what `batch` returns is the same for each number of
/// workers, unless memory runs out.
#[tactic(auto, using(crate::proofs::CaseLaws::one_texts))]
pub fn batches_agree()
    ensures texts { (p : Program) (cases : List Case) (a b : List Text) → AreCaseTexts p cases a → AreCaseTexts p cases b → a ≡ b }
    ensures stopped { (p : Program) (cases : List Case) (n m r s : ℕ) (o q : Outcome) →
        FirstStopped p cases n r o → FirstStopped p cases m s q → (n ≡ m) × (r ≡ s) × (o ≡ q) }
    ensures either { (p : Program) (cases : List Case) (texts : List Text) (n r : ℕ) (o : Outcome) →
        AreCaseTexts p cases texts → FirstStopped p cases n r o → ⊥ }
{}
