//! Why the automata of a source have no alphabets.

ghost use Rattle.std.specs.Prelude.{◌≡◌};
ghost use Rattle.cif_inst_automata.specs.declared.error.AutomataErr.TheVariants.{Memory as no_memory};

use cif_base::Memory;

/// Which rule on events of automata is broken, with the byte where that is, counted from 0, or that memory ran out.
#[derive(Clone, Copy, Debug, PartialEq, Eq)]
pub enum AutomataErr {
    /// An edge that synchronises, or `monitor`, names there an event outside the alphabet (14).
    AlphabetLacks { at: u32 },
    /// An event has two roles in the automaton that is named there: it is in the alphabet, sent or received (15).
    RoleMixed { at: u32 },
    Memory,
}

impl From<Memory> for AutomataErr {
    ghost from_gives = { λ _ e. e ≡ no_memory };

    fn from(_error: Memory) -> AutomataErr {
        AutomataErr::Memory
    }
}
