//! How many there are of something, and how many nodes they have.

ghost use Rattle.std.specs.Prelude.{◌≡◌};
ghost use Rattle.cif_alg.specs.Weighed.{nothing, with_one, paired, all_nodes};

use crate::limit::{product, sum};

/// How many there are, and how many nodes they have together. Both stop one past the limit.
#[derive(Clone, Copy)]
pub struct Weighed {
    pub count: u64,
    pub nodes: u64,
}

impl Weighed {
    /// None.
    pub fn none() -> Weighed
        ensures { result ≡ nothing }
    {
        Weighed { count: 0, nodes: 0 }
    }

    /// With one more, which has so many nodes.
    pub fn with_one(self, nodes: u64) -> Weighed
        ensures { result ≡ with_one nodes self }
    {
        Weighed {
            count: sum(self.count, 1),
            nodes: sum(self.nodes, nodes),
        }
    }

    /// Each of these with each of the others. It has the nodes of both.
    pub fn paired(self, others: Weighed) -> Weighed
        ensures { result ≡ paired self others }
    {
        Weighed {
            count: product(self.count, others.count),
            nodes: sum(
                product(self.nodes, others.count),
                product(self.count, others.nodes),
            ),
        }
    }

    /// The nodes of all, with so many more for each.
    pub fn all_nodes(self, each: u64) -> u64
        ensures { result ≡ all_nodes each self }
    {
        sum(product(self.count, each), self.nodes)
    }
}
