//! Why nodes have no order.

ghost use Rattle.std.specs.Prelude.{◌≡◌};
ghost use Rattle.cif_order.specs.declared.error.OrderErr.TheVariants.{Memory as no_memory};

use cif_base::Memory;

/// Why nodes have no order: one of them needs itself, mostly through others, or memory ran out.
#[derive(Clone, Copy, Debug, PartialEq, Eq)]
pub enum OrderErr {
    Cycle { node: u32 },
    Memory,
}

impl From<Memory> for OrderErr {
    ghost from_gives = { λ _ e. e ≡ no_memory };

    fn from(_error: Memory) -> OrderErr {
        OrderErr::Memory
    }
}
