//! The law on automata that are counted in the place of others, as the contract of a function without a body.

ghost use Rattle.std.specs.Prelude.{◌≡◌, List, true};
ghost use Rattle.cif_net_model.specs.Net.{NetAuto, NetExclusion, NetInvariant, Net};
ghost use Rattle.cif_net_model.specs.Facts.{is_net};
ghost use Rattle.cif_net_model.specs.Counts.{nodes, stopped, most_nodes};
ghost use Rattle.cif_alg_measure.specs.declared.measures.Measure.{Measure};
ghost use Rattle.cif_alg_measure.specs.Meanings.{table_measure};
ghost use Rattle.cif_alg_measure.specs.Sizes.{AreMeasured};
ghost use Rattle.cif_alg.specs.Sizes.{sizes_added};
ghost use Rattle.cif_alg.specs.Tallies.{counted};
ghost use Rattle.cif_alg.specs.Outlines.{AreAsLarge};

/// Where automata, exclusions and state invariants are as large as those of a net, as many nodes are counted for them, with the
/// sizes of its algebraic variables, as the net has. So whether a net is too large is told before any of its expressions is made: of
/// outlines that have a measure in the place of each edge's expressions and of each predicate, and of the measures of the algebraic
/// variables.
pub fn outlines_have_the_nodes_of_their_net()
    ensures { (n : Net) (own algs : List Measure) (autos : List NetAuto) (exclusions : List NetExclusion) (invariants : List NetInvariant)
        → is_net n ≡ true → AreMeasured own n → AreAsLarge algs autos exclusions invariants n
        → sizes_added (counted (table_measure algs) autos exclusions invariants n.events) own ≡ stopped most_nodes (nodes n) }
{}
