//! Why a net has no text.

ghost use Rattle.std.specs.Prelude.{◌≡◌};
ghost use Rattle.plc_back.specs.declared.error.ProfileErr.TheVariants.{Memory as no_memory};

use cif_base::Memory;

/// Why a net has no text: an event is neither controllable nor uncontrollable, of which the lowest number is told, or memory
/// ran out.
#[derive(Clone, Copy, Debug, PartialEq, Eq)]
pub enum ProfileErr {
    Unclassed { event: u32 },
    Memory,
}

impl From<Memory> for ProfileErr {
    ghost from_gives = { λ _ e. e ≡ no_memory };

    fn from(_error: Memory) -> ProfileErr {
        ProfileErr::Memory
    }
}
