//! The laws of orders of algebraic variables, each the contract of a function without a body.

ghost use Rattle.std.specs.Prelude.{ℕ, List};
ghost use Rattle.cif_net_model.specs.Net as model;
ghost use Rattle.cif_net_model.specs.Rules.{IsAcyclic};
ghost use Rattle.cif_alg_order.specs.Orders.{IsOrderOf, IsRankOf};

/// An order gives each algebraic variable a rank.
pub fn an_order_gives_a_rank()
    ensures { (n : model.Net) (order : List ℕ) → IsOrderOf n order → (rank : ℕ → ℕ) × IsRankOf n rank }
{}

/// Where algebraic variables have an order, none depends on itself.
pub fn ordered_nets_are_acyclic()
    ensures { (n : model.Net) (order : List ℕ) → IsOrderOf n order → IsAcyclic n }
{}
