//! Why a source has no net.

ghost use Rattle.std.specs.Prelude.{◌≡◌};
ghost use Rattle.cif_inst.specs.Net.{of_automata, of_components, of_constants};
ghost use Rattle.cif_inst.specs.declared.error.InstErr.TheVariants.{Memory as no_memory};

use cif_base::Memory;
use cif_inst_automata::AutomataErr;
use cif_inst_components::ComponentsErr;
use cif_inst_constants::ConstErr;

/// Why a source has no net, with the byte where that is, counted from 0, or that memory ran out.
#[derive(Clone, Copy, Debug, PartialEq, Eq)]
pub enum InstErr {
    /// An edge that synchronises, or `monitor`, names there an event outside the alphabet.
    AlphabetLacks { at: u32 },
    /// An event has two roles in the automaton that is named there: it is in the alphabet, sent or received.
    RoleMixed { at: u32 },
    /// Components, declarations, locations and edges are too many. The count stops one past the limit.
    TooManyObjects { count: u32 },
    /// In the constant expression there, the value of a constant, a first value or a bound of a type, every operand evaluated, a
    /// value leaves 64 bits or a divisor is 0; or its value leaves its declared range; or a bound there leaves 32 bits; or the
    /// lower bound there exceeds the upper one.
    ConstantRange { at: u32 },
    /// With arguments in the place of their parameters, the choices of the net have more than 1,000,000 nodes, or an expression
    /// is deeper than 100. Each count stops one past its limit.
    TooLarge { nodes: u32, depth: u32 },
    Memory,
}

impl From<Memory> for InstErr {
    ghost from_gives = { λ _ e. e ≡ no_memory };

    fn from(_error: Memory) -> InstErr {
        InstErr::Memory
    }
}

impl From<ComponentsErr> for InstErr {
    ghost from_gives = { λ c e. e ≡ of_components c };

    fn from(error: ComponentsErr) -> InstErr {
        match error {
            ComponentsErr::TooManyObjects { count } => InstErr::TooManyObjects { count },
            ComponentsErr::Memory => InstErr::Memory,
        }
    }
}

impl From<ConstErr> for InstErr {
    ghost from_gives = { λ c e. e ≡ of_constants c };

    fn from(error: ConstErr) -> InstErr {
        match error {
            ConstErr::ConstantRange { at } => InstErr::ConstantRange { at },
            ConstErr::Memory => InstErr::Memory,
        }
    }
}

impl From<AutomataErr> for InstErr {
    ghost from_gives = { λ a e. e ≡ of_automata a };

    fn from(error: AutomataErr) -> InstErr {
        match error {
            AutomataErr::AlphabetLacks { at } => InstErr::AlphabetLacks { at },
            AutomataErr::RoleMixed { at } => InstErr::RoleMixed { at },
            AutomataErr::Memory => InstErr::Memory,
        }
    }
}
