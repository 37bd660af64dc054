//! What a step may change.

use cif_base::Items;

/// The automata and the variables that a step may change, each in ascending number.
#[derive(Drop)]
pub struct Touched {
    pub autos: Items<u32>,
    pub vars: Items<u32>,
}
