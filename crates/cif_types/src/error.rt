//! Why a source has no kinds.

ghost use Rattle.std.specs.Prelude.{◌≡◌};
ghost use Rattle.cif_types.specs.Errors.{kind_error, constancy_error, target_error, equation_error};
ghost use Rattle.cif_types.specs.declared.error.TypeErr.TheVariants.{Memory as no_memory};

use cif_base::Memory;
use cif_types_constancy::ConstancyErr;
use cif_types_equations::EquationErr;
use cif_types_kinds::KindErr;
use cif_types_targets::TargetErr;

/// Why a source has no kinds, with the byte where that is, counted from 0, or that memory ran out.
#[derive(Clone, Copy, Debug, PartialEq, Eq)]
pub enum TypeErr {
    /// The expression there has another kind than its position asks for, the use of an event there does not fit what is sent along
    /// it, or the argument there does not fit its parameter.
    Mismatch { at: u32 },
    /// The name there stands in a bound of a type, the value of a constant or a first value, and is no constant and no literal.
    NotConstant { at: u32 },
    /// The automaton whose name stands there has so many initial locations, and not one.
    Initials { at: u32, count: u32 },
    /// The variable that is assigned there isn't declared in the body that assigns it.
    NotOwn { at: u32 },
    /// An earlier update of the same list assigns the variable there too, at any depth.
    AssignedTwice { at: u32 },
    /// The algebraic variable whose name stands there has so many definitions, and not one, in its group or in some location.
    Equations { at: u32, count: u32 },
    Memory,
}

impl From<Memory> for TypeErr {
    ghost from_gives = { λ _ e. e ≡ no_memory };

    fn from(_error: Memory) -> TypeErr {
        TypeErr::Memory
    }
}

impl From<KindErr> for TypeErr {
    ghost from_gives = { λ e r. r ≡ kind_error e };

    fn from(error: KindErr) -> TypeErr {
        match error {
            KindErr::Mismatch { at } => TypeErr::Mismatch { at },
            KindErr::Memory => TypeErr::Memory,
        }
    }
}

impl From<ConstancyErr> for TypeErr {
    ghost from_gives = { λ e r. r ≡ constancy_error e };

    fn from(error: ConstancyErr) -> TypeErr {
        match error {
            ConstancyErr::NotConstant { at } => TypeErr::NotConstant { at },
            ConstancyErr::Memory => TypeErr::Memory,
        }
    }
}

impl From<TargetErr> for TypeErr {
    ghost from_gives = { λ e r. r ≡ target_error e };

    fn from(error: TargetErr) -> TypeErr {
        match error {
            TargetErr::NotOwn { at } => TypeErr::NotOwn { at },
            TargetErr::AssignedTwice { at } => TypeErr::AssignedTwice { at },
            TargetErr::Memory => TypeErr::Memory,
        }
    }
}

impl From<EquationErr> for TypeErr {
    ghost from_gives = { λ e r. r ≡ equation_error e };

    fn from(error: EquationErr) -> TypeErr {
        match error {
            EquationErr::Equations { at, count } => TypeErr::Equations { at, count },
            EquationErr::Memory => TypeErr::Memory,
        }
    }
}
