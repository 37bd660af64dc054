//! Nets with the choices of all their events.

ghost use Rattle.std.specs.Prelude.{◌≡◌, map};
ghost use Rattle.cif_net_model.specs.Listing.{guarded_of};
ghost use Rattle.cif_net.specs.View.{net_tree, choice_tree};

use crate::listing::Choice;
use crate::plain::Plain;
use cif_base::Items;

/// A plain net with the choices of all its events in their order: for a channel by sender and then by receiver, and then
/// lexicographically by the automata that take part, whose edges stand in text order and to stay is last. `listed` keeps
/// that they are all choices of the net, with what the net asks of each.
#[derive(Debug, Drop)]
pub struct Guarded {
    pub plain: Plain,
    pub choices: Items<Choice>,
    pub ghost listed: { ∥ map choice_tree choices ≡ guarded_of (net_tree plain.net) ∥₁ },
}
