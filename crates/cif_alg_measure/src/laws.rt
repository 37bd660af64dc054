//! What holds of nets without algebraic variables, as a law that a proof reads off: the contract of a function without a body.

ghost use Rattle.std.specs.Prelude.{◌≡◌, []};
ghost use Rattle.cif_net_model.specs.Net as model;
ghost use Rattle.cif_alg_measure.specs.Sizes.{AreMeasured};

/// The algebraic variables of a net without any have no measures.
pub fn none_measured()
    ensures { (n : model.Net) → n.algs ≡ [] → AreMeasured [] n }
{}
