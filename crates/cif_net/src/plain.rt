//! Nets whose expressions name no algebraic variable.

ghost use Rattle.std.specs.Prelude.{◌≡◌, true};
ghost use Rattle.cif_net_model.specs.Rules.{is_plain};
ghost use Rattle.cif_net.specs.View.{net_tree};

use crate::net::Net;

/// A net in which algebraic variables are replaced by their definitions. No divisor may be 0, the value of each part of an
/// expression has 64 bits, and state invariants read no input and hold in the initial state.
#[derive(Debug, Drop)]
pub struct Plain {
    pub net: Net,
    pub ghost plain: { is_plain (net_tree net) ≡ true },
}
