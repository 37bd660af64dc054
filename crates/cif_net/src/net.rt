//! Flat nets of automata (CIF 3 language reference, "Automata").

ghost use Rattle.std.specs.Prelude.{◌≡◌, true};
ghost use Rattle.cif_net_model.specs.Facts.{is_net};
ghost use Rattle.cif_net.specs.Parts.{net_of_parts};

use crate::automata::Auto;
use crate::data::{Alg, Input, Var};
use crate::events::Event;
use crate::predicates::{Exclusion, Invariant};
use cif_base::Items;

/// A net. What each list holds is numbered from 0 in its order. Every number in a net names something, each expression
/// has the kind that its position asks for, and so on: `fits` keeps the test `is_net` of the net that these parts make.
#[derive(Debug, Drop)]
pub struct Net {
    pub autos: Items<Auto>,
    pub events: Items<Event>,
    pub inputs: Items<Input>,
    pub vars: Items<Var>,
    pub algs: Items<Alg>,
    pub exclusions: Items<Exclusion>,
    pub invariants: Items<Invariant>,
    pub ghost fits: { is_net (net_of_parts autos events inputs vars algs exclusions invariants) ≡ true },
}
