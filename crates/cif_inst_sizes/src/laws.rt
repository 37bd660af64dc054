//! The law of weights, as the contract of a function without a body.

ghost use Rattle.std.specs.Prelude.{◌≡◌, ℕ, true};
ghost use Rattle.cif_alg_order.specs.Orders.{IsRankOf};
ghost use Rattle.cif_inst_model.specs.Flat.{net_of_source};
ghost use Rattle.cif_inst_names.specs.Looking.{source_for};
ghost use Rattle.cif_inst_names.specs.declared.looking.Looking.{Looking};
ghost use Rattle.cif_inst_sizes.specs.Weights.{AreWeights};
ghost use Rattle.cif_inst_sizes.specs.declared.weights.Weights.{Weights};

/// Where weights are exact, the algebraic variables of the net have a rank, so none depends on itself.
pub fn exact_weights_give_a_rank()
    ensures { (l : Looking) (w : Weights) → AreWeights l w → w.exact ≡ true → (rank : ℕ → ℕ) × IsRankOf (net_of_source (source_for l)) rank }
{}
