//! What is proved of the texts of expressions, as laws that a proof reads off: each the contract of a function without a body.

ghost use Rattle.std.specs.Prelude.{◌≡◌, ℕ, ◌+◌, ◌*◌, ◌≤◌, true, List, [], length, Ok, Option};
ghost use Rattle.std.specs.List.{AllByRecursion};
ghost use Rattle.cif_base.specs.declared.types.Ty.{Ty};
ghost use Rattle.cif_net_expr.specs.Tree.{NetExpr};
ghost use Rattle.cif_net_model.specs.Net.{Net};
ghost use Rattle.cif_net_model.specs.Kinds.{Kind, is_bool, fits};
ghost use Rattle.cif_net_model.specs.Counts.{Measure, measure_by};
ghost use Rattle.cif_net_model.specs.Reads.{names_in, names_no_alg};
ghost use Rattle.st_ast.specs.Values.{Memory, value_of};
ghost use Rattle.st_ast.specs.Checks.{stms_faults};
ghost use Rattle.st_ast.specs.Grammar.{at_or};
ghost use Rattle.st_ast.specs.Spelled.{is_expr, are_stms};
ghost use Rattle.st_ast.specs.declared.tree.StVar.{StVar};
ghost use Rattle.plc_expr.specs.Texts.{Naming, temps, text, before};
ghost use Rattle.cif_net_model.specs.Safe.{Setting, value_at, IsSafe};
ghost use Rattle.plc_expr.specs.Held.{Reads, Held, IsThere, OwnPlaces, IsBeside, Prepares};
ghost use Rattle.plc_expr.specs.Sorts.{own_types, is_boolean, HasSort, NamesHaveSorts, AreOwn, NamesAreSpelled};

/// In each memory from which the names are read as they are in the setting, and in which the own variables hold what they
/// are to hold, the text of a safe expression has the value of the expression, and no fault.
pub fn texts_have_the_value()
    ensures { (vars : List StVar) (w : Naming) (x : Setting) (m : Memory) (k : ℕ) (e : NetExpr) →
        Reads vars w x m e → IsSafe x e → Held vars w x m k e →
        value_of vars (text w k e) m ≡ Ok (value_at x e) }
{}

/// The statements before the text of a safe expression end without a fault and without a turn, change its own variables
/// alone, and these then hold what they are to hold; the names are read as they are in the setting, whatever the own
/// variables hold.
pub fn statements_before_a_text_prepare_it()
    ensures { (vars : List StVar) (w : Naming) (x : Setting) (base low count k : ℕ) (e : NetExpr) (turns : ℕ) (m : Memory) →
        OwnPlaces vars w base low count → base + low + count ≤ length m → low ≤ k → k + temps e ≤ low + count →
        ((o : Memory) → IsBeside (base + low) count m o → Reads vars w x o e) → IsSafe x e →
        Prepares vars w x base k e turns m }
{}

/// An expression that has a kind, and names no algebraic variable, names what is there alone.
pub fn named_things_are_there()
    ensures { (n : Net) (r : Option Ty) (k : Kind) (e : NetExpr) → fits n r k e ≡ true → names_no_alg e ≡ true →
        AllByRecursion (IsThere n r) (names_in e) }
{}

/// The text of an expression that has a kind has a spelling, and nests at most three times as deep as the expression, and
/// two deeper.
pub fn texts_have_a_spelling()
    ensures { (w : Naming) (n : Net) (r : Option Ty) (kind : Kind) (e : NetExpr) (alg : ℕ → Measure) (k d : ℕ) →
        NamesAreSpelled w n → fits n r kind e ≡ true → 3 * (measure_by alg e).depth + 2 ≤ d →
        is_expr d at_or (text w k e) ≡ true }
{}

/// So have the statements before it, which nest no deeper than an IF, where the expression isn't deeper than 132.
pub fn statements_before_a_text_have_a_spelling()
    ensures { (w : Naming) (n : Net) (r : Option Ty) (kind : Kind) (e : NetExpr) (alg : ℕ → Measure) (k d : ℕ) →
        NamesAreSpelled w n → fits n r kind e ≡ true → (measure_by alg e).depth ≤ 132 → 1 ≤ d →
        are_stms d (before w k e) ≡ true }
{}

/// Where the names are declared with their sorts, and the own variables with theirs, the text of an expression that has a
/// kind and names no algebraic variable is BOOL where the kind is that of booleans, and else an integer.
pub fn texts_have_the_sort()
    ensures { (vars : List StVar) (w : Naming) (n : Net) (r : Option Ty) (kind : Kind) (k : ℕ) (e : NetExpr) →
        NamesHaveSorts vars w n r → fits n r kind e ≡ true → names_no_alg e ≡ true →
        AreOwn vars w k (own_types n r e) → HasSort vars (text w k e) (is_bool kind) }
{}

/// Nor do the statements before it break a check then, whatever their numbers.
pub fn statements_before_a_text_break_no_check()
    ensures { (vars : List StVar) (w : Naming) (n : Net) (r : Option Ty) (kind : Kind) (k j : ℕ) (e : NetExpr) →
        NamesHaveSorts vars w n r → fits n r kind e ≡ true → names_no_alg e ≡ true →
        AreOwn vars w k (own_types n r e) → stms_faults vars j (before w k e) ≡ [] }
{}

/// There are as many types of own variables as there are own variables.
pub fn own_variables_have_types()
    ensures { (n : Net) (r : Option Ty) (e : NetExpr) → length (own_types n r e) ≡ temps e }
{}

/// An expression that has a kind, and names no algebraic variable, is true or false where the kind is that of booleans alone.
pub fn kinds_tell_what_is_boolean()
    ensures { (n : Net) (r : Option Ty) (kind : Kind) (e : NetExpr) → fits n r kind e ≡ true → names_no_alg e ≡ true →
        is_boolean n r e ≡ is_bool kind }
{}
