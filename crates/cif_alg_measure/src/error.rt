//! Why an expression has no interval of 64 bits.

ghost use Rattle.std.specs.Prelude.{◌≡◌};
ghost use Rattle.cif_alg_measure.specs.declared.error.IntervalErr.TheVariants.{Width, Memory as no_memory};

use cif_base::Memory;

/// The interval of a divisor has 0, or that of a part of an expression leaves 64 bits. `at` is the byte of the source where
/// the divisor or the part begins.
#[derive(Clone, Copy, Debug, PartialEq, Eq)]
pub enum WidthErr {
    ZeroDivisor { at: u32 },
    TooWide { at: u32 },
}

/// An expression of a net has no interval of 64 bits, or memory ran out.
#[derive(Clone, Copy, Debug, PartialEq, Eq)]
pub enum IntervalErr {
    Width(WidthErr),
    Memory,
}

impl From<Memory> for IntervalErr {
    ghost from_gives = { λ _ e. e ≡ no_memory };

    fn from(_error: Memory) -> IntervalErr {
        IntervalErr::Memory
    }
}

impl From<WidthErr> for IntervalErr {
    ghost from_gives = { λ e r. r ≡ Width e };

    fn from(error: WidthErr) -> IntervalErr {
        IntervalErr::Width(error)
    }
}
