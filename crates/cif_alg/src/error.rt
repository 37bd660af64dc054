//! Why a net is not made plain.

ghost use Rattle.std.specs.Prelude.{◌≡◌};
ghost use Rattle.cif_alg.specs.Refusals.{order_refusal, interval_refusal};
ghost use Rattle.cif_alg.specs.declared.error.AlgErr.TheVariants.{Memory as no_memory};

use cif_alg_measure::{IntervalErr, WidthErr};
use cif_alg_order::AlgebraicErr;
use cif_base::Memory;

/// Why a net is not made plain, or that memory ran out. `at` is the byte of the source where the divisor, the part or the state
/// invariant begins.
#[derive(Clone, Copy, Debug, PartialEq, Eq)]
pub enum AlgErr {
    /// The algebraic variable depends on itself, and none with a lower number does.
    Cycle { alg: u32 },
    /// The interval of the divisor has 0.
    ZeroDivisor { at: u32 },
    /// The interval of the part of an expression leaves 64 bits.
    TooWide { at: u32 },
    /// The state invariant reads an input, with algebraic variables unfolded.
    InvariantReadsInput { at: u32 },
    /// The state invariant reads no input, and does not hold in the initial state.
    InvariantFalse { at: u32 },
    /// The choices of the net have more than 1,000,000 nodes, or an expression is deeper than 100. Each count stops one past
    /// its limit.
    TooLarge { nodes: u32, depth: u32 },
    Memory,
}

impl From<Memory> for AlgErr {
    ghost from_gives = { λ _ e. e ≡ no_memory };

    fn from(_error: Memory) -> AlgErr {
        AlgErr::Memory
    }
}

impl From<AlgebraicErr> for AlgErr {
    ghost from_gives = { λ e r. r ≡ order_refusal e };

    fn from(error: AlgebraicErr) -> AlgErr {
        match error {
            AlgebraicErr::Cycle { alg } => AlgErr::Cycle { alg },
            AlgebraicErr::Memory => AlgErr::Memory,
        }
    }
}

impl From<IntervalErr> for AlgErr {
    ghost from_gives = { λ e r. r ≡ interval_refusal e };

    fn from(error: IntervalErr) -> AlgErr {
        match error {
            IntervalErr::Width(WidthErr::ZeroDivisor { at }) => AlgErr::ZeroDivisor { at },
            IntervalErr::Width(WidthErr::TooWide { at }) => AlgErr::TooWide { at },
            IntervalErr::Memory => AlgErr::Memory,
        }
    }
}
