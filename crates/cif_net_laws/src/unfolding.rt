//! The laws, each the contract of a function without a body.

ghost use Rattle.std.specs.Prelude.{◌≡◌, true, false};
ghost use Rattle.std.specs.List.{list_all, AllZip};
ghost use Rattle.cif_net_model.specs.Counts.{is_too_large};
ghost use Rattle.cif_net_model.specs.Facts.{is_net};
ghost use Rattle.cif_net_model.specs.Inline.{Unfolds};
ghost use Rattle.cif_net_model.specs.Interval.{declared_ranges};
ghost use Rattle.cif_net_model.specs.Meaning.{system_of_net};
ghost use Rattle.cif_net_model.specs.Net.{Net};
ghost use Rattle.cif_net_model.specs.Parts.{divides, is_narrow_expr};
ghost use Rattle.cif_net_model.specs.Rules.{Evaluated, evaluated, is_plain_expr, invariant_keeps, is_plain};
ghost use Rattle.cif_net_laws.specs.Face.{HasSameFace};
ghost use Rattle.cif_net_laws.specs.Invariants.{IsInvariantOf};

/// A net in which algebraic variables are replaced by their definitions has the same automata, guards, sent values,
/// assignments, outputs, exclusions and state invariants, as functions of the state.
pub fn unfolded_nets_mean_the_same()
    ensures { (n p : Net) → is_net n ≡ true → Unfolds n p → system_of_net p ≡ system_of_net n }
{}

/// It is a net.
pub fn unfolded_nets_are_nets()
    ensures { (n p : Net) → is_net n ≡ true → Unfolds n p → is_net p ≡ true }
{}

/// Where the net divides by no 0 and stays in 64 bits, so do its expressions, and they name no algebraic variable.
pub fn unfolded_nets_have_plain_expressions()
    ensures { (n p : Net) → is_net n ≡ true → Unfolds n p →
        list_all (λ (x : Evaluated). divides (declared_ranges n x.received) x.value) (evaluated n) ≡ true →
        list_all (λ (x : Evaluated). is_narrow_expr (declared_ranges n x.received) x.value) (evaluated n) ≡ true →
        list_all (is_plain_expr p) (evaluated p) ≡ true }
{}

/// It is plain, where its state invariants read no input and hold in the initial state, and the net divides by no 0, stays
/// in 64 bits and is not too large.
pub fn unfolded_nets_are_plain()
    ensures { (n p : Net) → is_net n ≡ true → list_all (invariant_keeps p) p.invariants ≡ true → Unfolds n p →
        list_all (λ (x : Evaluated). divides (declared_ranges n x.received) x.value) (evaluated n) ≡ true →
        list_all (λ (x : Evaluated). is_narrow_expr (declared_ranges n x.received) x.value) (evaluated n) ≡ true →
        is_too_large n ≡ false → is_plain p ≡ true }
{}

/// Its state invariants stand at the same places as those of the net, read an input where those do with algebraic variables
/// unfolded, and hold in the initial state where those do.
pub fn unfolded_nets_keep_their_invariants()
    ensures { (n p : Net) → is_net n ≡ true → Unfolds n p → AllZip (IsInvariantOf n p) n.invariants p.invariants }
{}

/// It differs from the net in expressions alone: events, inputs and variables are the same, and so are paths, types, literals,
/// locations, alphabets, and the events, ends and places of edges.
pub fn unfolded_nets_have_the_same_face()
    ensures { (n p : Net) → Unfolds n p → HasSameFace n p }
{}
