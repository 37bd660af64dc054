ghost use Rattle.std.specs.Prelude.{◌≡◌, ℕ, ℤ, true, List, ◌∷◌, IsTrue, Some, slice_get};
ghost use Rattle.cif_base.specs.Bounds.{in_64_bits};
ghost use Rattle.cif_base.specs.declared.types.Ty.{Ty};
ghost use Rattle.cif_system.specs.Words.{Member};
ghost use Rattle.cif_system.specs.System.{State, IsState, in_range};
ghost use Rattle.cif_net_expr.specs.Tree.{NetExpr};
ghost use Rattle.cif_net_model.specs.Net.{Net, NetEdge};
ghost use Rattle.cif_net_model.specs.Meaning.{system_of_net, true_in, type_range, value_in};
ghost use Rattle.cif_net_model.specs.Facts.{channel_of};
ghost use Rattle.cif_net_model.specs.Shown.{targeted_values, channel_range, edge_of, is_shown};
ghost use Rattle.cif_net_model.specs.Interval.{interval};
ghost use Rattle.cif_net_model.specs.Parts.{parts};
ghost use Rattle.cif_net_model.specs.Rules.{Evaluated, evaluated, is_plain};

/// In a plain net the value of an evaluated expression, and of each part of one, lies in its interval, where what is
/// received lies in its range.
pub fn value_in_interval()
    ensures { (n : Net) (s : State) (x : Evaluated) (z : ℤ) → is_plain n ≡ true →
        IsState (system_of_net n) s → Member x (evaluated n) → IsTrue (in_range x.received z) →
        (p : NetExpr) → Member p (x.value ∷ parts x.value) →
        IsTrue (in_range (interval n x.received p) (value_in n s z p)) }
{}

/// In a plain net the value of each part of an evaluated expression has 64 bits.
pub fn value_fits()
    ensures { (n : Net) (s : State) (x : Evaluated) (z : ℤ) → is_plain n ≡ true →
        IsState (system_of_net n) s → Member x (evaluated n) → IsTrue (in_range x.received z) →
        (p : NetExpr) → Member p (parts x.value) → IsTrue (in_64_bits (value_in n s z p)) }
{}

/// In a plain net a value that the guard of an edge shows lies in the range of its target, in each state in which the
/// guard holds, where what is received lies in its range.
pub fn shown_value_in_range()
    ensures { (n : Net) (s : State) (auto edge place : ℕ) (x : NetEdge) (t : Ty) (e : NetExpr) (z : ℤ) →
        is_plain n ≡ true → IsState (system_of_net n) s → edge_of n auto edge ≡ Some x →
        slice_get (targeted_values n x) place ≡ Some (Some t, e) → IsTrue (true_in n s x.guard) →
        IsTrue (in_range (channel_range (channel_of n x.event)) z) → is_shown n auto edge place ≡ true →
        IsTrue (in_range (type_range t) (value_in n s z e)) }
{}
