//! What is proved of the texts of expressions, as laws that a proof reads off: each the contract of a function without a body.

ghost use Rattle.std.specs.Prelude.{◌≡◌, ℕ};
ghost use Rattle.cif_net_expr.specs.Tree.{NetExpr};
ghost use Rattle.cif_net_model.specs.Reads.{names_in};
ghost use Rattle.plc_expr.specs.Texts.{Naming, before, text};
ghost use Rattle.plc_expr_walk.specs.Alike.{AreAlike};

/// The text of an expression is the same under two ways of naming that name alike what it names.
pub fn texts_follow_the_names()
    ensures { (w v : Naming) (k : ℕ) (e : NetExpr) → AreAlike w v (names_in e) → text w k e ≡ text v k e }
{}

/// So are the statements before it.
pub fn statements_before_a_text_follow_the_names()
    ensures { (w v : Naming) (k : ℕ) (e : NetExpr) → AreAlike w v (names_in e) → before w k e ≡ before v k e }
{}
