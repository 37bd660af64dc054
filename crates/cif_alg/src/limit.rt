//! Counts that stop one past the limit.

ghost use Rattle.std.specs.Prelude.{◌≡◌, ◌+◌, ◌*◌};
ghost use Rattle.cif_alg.specs.Weighed.{cut};

use cif_alg_measure::MOST_NODES;

/// The sum of two counts.
pub fn sum(left: u64, right: u64) -> u64
    ensures { result ≡ cut (left + right) }
{
    left.saturating_add(right).min(MOST_NODES + 1)
}

/// The product of two counts.
pub fn product(left: u64, right: u64) -> u64
    ensures { result ≡ cut (left * right) }
{
    left.saturating_mul(right).min(MOST_NODES + 1)
}
