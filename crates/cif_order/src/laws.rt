//! The laws of orders, each the contract of a function without a body.

ghost use Rattle.std.specs.Prelude.{ℕ, List};
ghost use Rattle.cif_order.specs.Graph.{IsOrder, IsCyclic, IsRank};

/// Where needs have an order, no node reaches itself.
pub fn ordered_needs_are_acyclic()
    ensures { (needs : List (List ℕ)) (order : List ℕ) → IsOrder needs order → (x : ℕ) → IsCyclic needs x → ⊥ }
{}

/// An order gives each node a rank below the number of nodes, in which a need has a lower one than the node that needs it.
pub fn an_order_gives_a_rank()
    ensures { (needs : List (List ℕ)) (order : List ℕ) → IsOrder needs order →
        (rank : ℕ → ℕ) × IsRank needs rank }
{}
