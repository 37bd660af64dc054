//! Why choices are not listed.

ghost use Rattle.std.specs.Prelude.{◌≡◌};
ghost use Rattle.cif_lin.specs.declared.error.LinErr.TheVariants.{Memory as no_memory};

use cif_base::Memory;

/// Why choices are not listed: there are more than 16,384 of them, where the count stops one past that, or memory ran out.
#[derive(Clone, Copy, Debug, PartialEq, Eq)]
pub enum LinErr {
    TooManyChoices { count: u32 },
    Memory,
}

impl From<Memory> for LinErr {
    ghost from_gives = { λ _ e. e ≡ no_memory };

    fn from(_error: Memory) -> LinErr {
        LinErr::Memory
    }
}
