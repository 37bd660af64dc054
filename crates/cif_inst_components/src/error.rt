//! Why a source's components are not numbered.

ghost use Rattle.std.specs.Prelude.{◌≡◌};
ghost use Rattle.cif_inst_components.specs.declared.error.ComponentsErr.TheVariants.{Memory as no_memory};

use cif_base::Memory;

/// There are more than 100,000 components, declarations, locations and edges, with their count, which stops one past the limit (17),
/// or memory ran out.
#[derive(Clone, Copy, Debug, PartialEq, Eq)]
pub enum ComponentsErr {
    TooManyObjects { count: u32 },
    Memory,
}

impl From<Memory> for ComponentsErr {
    ghost from_gives = { λ _ e. e ≡ no_memory };

    fn from(_error: Memory) -> ComponentsErr {
        ComponentsErr::Memory
    }
}
