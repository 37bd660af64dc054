//! Why the definitions of a source's algebraic variables are refused.

ghost use Rattle.std.specs.Prelude.{◌≡◌};
ghost use Rattle.cif_types_equations.specs.declared.error.EquationErr.TheVariants.{Memory as no_memory};

use cif_base::Memory;

/// An algebraic variable without exactly one definition, with the byte where its declared name stands, counted from 0; or memory
/// ran out.
#[derive(Clone, Copy, Debug, PartialEq, Eq)]
pub enum EquationErr {
    /// So many definitions, and not one: in a group, or in some location of an automaton. Its declared value, the equations of
    /// its component and those of that location are counted.
    Equations { at: u32, count: u32 },
    Memory,
}

impl From<Memory> for EquationErr {
    ghost from_gives = { λ _ e. e ≡ no_memory };

    fn from(_error: Memory) -> EquationErr {
        EquationErr::Memory
    }
}
