//! The laws, each the contract of a function without a body.

ghost use Rattle.std.specs.Prelude.{◌≡◌, ℕ, ℤ, true, IsTrue, Option, Some};
ghost use Rattle.cif_base.specs.declared.types.Ty.{Ty};
ghost use Rattle.cif_system.specs.System.{State, IsState, initial, in_range};
ghost use Rattle.cif_system.specs.Words.{Member};
ghost use Rattle.cif_net_model.specs.Net.{Net};
ghost use Rattle.cif_net_model.specs.Facts.{is_net};
ghost use Rattle.cif_net_model.specs.Kinds.{Kind, fits};
ghost use Rattle.cif_net_model.specs.Meaning.{system_of_net, type_range};
ghost use Rattle.cif_net_model.specs.Rules.{Evaluated, evaluated, is_plain_expr, is_plain};
ghost use Rattle.cif_net_model.specs.Safe.{setting_in, IsSafe};

/// In a net an expression that has a kind, names no algebraic variable, divides by no 0 and stays in 64 bits is safe in each
/// state, where what is received lies in its range and is of its type, whatever the values of algebraic variables.
pub fn plain_expressions_of_nets_are_safe()
    ensures { (n : Net) (algs : ℕ → ℤ) (s : State) (y : Evaluated) (z : ℤ) (r : Option Ty) (k : Kind) → is_net n ≡ true →
        is_plain_expr n y ≡ true → IsState (system_of_net n) s → IsTrue (in_range y.received z) →
        ((t : Ty) → r ≡ Some t → IsTrue (in_range (type_range t) z)) → fits n r k y.value ≡ true →
        IsSafe (record { algs = algs; state = s; received = z }) y.value }
{}

/// So is each evaluated expression of a plain net that has a kind.
pub fn plain_expressions_are_safe()
    ensures { (n : Net) (s : State) (y : Evaluated) (z : ℤ) (r : Option Ty) (k : Kind) → is_plain n ≡ true →
        IsState (system_of_net n) s → Member y (evaluated n) → IsTrue (in_range y.received z) →
        ((t : Ty) → r ≡ Some t → IsTrue (in_range (type_range t) z)) → fits n r k y.value ≡ true →
        IsSafe (setting_in n s z) y.value }
{}

/// The initial state of a net is one of its states.
pub fn initial_states_are_states()
    ensures { (n : Net) → is_net n ≡ true → IsState (system_of_net n) (initial (system_of_net n)) }
{}
