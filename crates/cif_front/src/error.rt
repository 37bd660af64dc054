//! Why a source is not loaded.

ghost use Rattle.std.specs.Prelude.{◌≡◌, []};
ghost use Rattle.cif_front.specs.Dues.{lex_refusal, parse_refusal, scope_refusal, type_refusal, inst_refusal, alg_refusal, lin_refusal};
ghost use Rattle.cif_front.specs.declared.error.LoadErr.TheVariants.{Memory as no_memory};

use cif_alg::AlgErr;
use cif_base::{Memory, Text};
use cif_inst::InstErr;
use cif_lex::LexErr;
use cif_lin::LinErr;
use cif_parse::ParseErr;
use cif_refusal::Refusal;
use cif_scope::ScopeErr;
use cif_types::TypeErr;
use std::alloc::Global;

/// Why a source is not loaded. A phase is begun only where those before it refuse nothing.
#[derive(Clone, Copy, Debug, PartialEq, Eq)]
pub enum LoadErr {
    /// It is refused.
    Refused { why: Refusal },
    /// The choices of all events are too many. The count stops one past the limit.
    TooManyChoices { count: u32 },
    Memory,
}

/// Why a source is not loaded, and the path of the algebraic variable that the refusal tells of. It is empty where it tells of none.
#[derive(Debug, Drop)]
pub struct Unloaded {
    pub why: LoadErr,
    pub path: Text,
}

impl Unloaded {
    /// A cause that tells of no algebraic variable. It takes no memory.
    pub fn plain(alloc: Global, why: LoadErr) -> Unloaded
        ensures { result ≡ record { why = why; path = [] } }
    {
        Unloaded {
            why,
            path: Text::new(alloc),
        }
    }
}

impl From<Memory> for LoadErr {
    ghost from_gives = { λ _ e. e ≡ no_memory };

    fn from(_error: Memory) -> LoadErr {
        LoadErr::Memory
    }
}

impl From<LexErr> for LoadErr {
    ghost from_gives = { λ e r. r ≡ lex_refusal e };

    fn from(error: LexErr) -> LoadErr {
        let why = match error {
            LexErr::BadByte { at } => Refusal::BadByte { at },
            LexErr::NumberTooBig { at } => Refusal::NumberTooBig { at },
            LexErr::OpenComment { at } => Refusal::OpenComment { at },
            LexErr::Memory => return LoadErr::Memory,
        };
        LoadErr::Refused { why }
    }
}

impl From<ParseErr> for LoadErr {
    ghost from_gives = { λ e r. r ≡ parse_refusal e };

    fn from(error: ParseErr) -> LoadErr {
        match error {
            ParseErr::NotRead { at } => LoadErr::Refused {
                why: Refusal::NotRead { at },
            },
            ParseErr::Memory => LoadErr::Memory,
        }
    }
}

impl From<ScopeErr> for LoadErr {
    ghost from_gives = { λ e r. r ≡ scope_refusal e };

    fn from(error: ScopeErr) -> LoadErr {
        let why = match error {
            ScopeErr::Unknown { at } => Refusal::Unknown { at },
            ScopeErr::Duplicate { at, first } => Refusal::Duplicate { at, first },
            ScopeErr::WrongKind { at } => Refusal::WrongKind { at },
            ScopeErr::DefinitionCycle { at } => Refusal::DefinitionCycle { at },
            ScopeErr::Memory => return LoadErr::Memory,
        };
        LoadErr::Refused { why }
    }
}

impl From<TypeErr> for LoadErr {
    ghost from_gives = { λ e r. r ≡ type_refusal e };

    fn from(error: TypeErr) -> LoadErr {
        let why = match error {
            TypeErr::Mismatch { at } => Refusal::Mismatch { at },
            TypeErr::NotConstant { at } => Refusal::NotConstant { at },
            TypeErr::Initials { at, count } => Refusal::Initials { at, count },
            TypeErr::NotOwn { at } => Refusal::NotOwn { at },
            TypeErr::AssignedTwice { at } => Refusal::AssignedTwice { at },
            TypeErr::Equations { at, count } => Refusal::Equations { at, count },
            TypeErr::Memory => return LoadErr::Memory,
        };
        LoadErr::Refused { why }
    }
}

impl From<InstErr> for LoadErr {
    ghost from_gives = { λ e r. r ≡ inst_refusal e };

    fn from(error: InstErr) -> LoadErr {
        let why = match error {
            InstErr::AlphabetLacks { at } => Refusal::AlphabetLacks { at },
            InstErr::RoleMixed { at } => Refusal::RoleMixed { at },
            InstErr::TooManyObjects { count } => Refusal::TooManyObjects { count },
            InstErr::ConstantRange { at } => Refusal::ConstantRange { at },
            InstErr::TooLarge { nodes, depth } => Refusal::TooLarge { nodes, depth },
            InstErr::Memory => return LoadErr::Memory,
        };
        LoadErr::Refused { why }
    }
}

impl From<AlgErr> for LoadErr {
    ghost from_gives = { λ e r. r ≡ alg_refusal e };

    fn from(error: AlgErr) -> LoadErr {
        let why = match error {
            AlgErr::Cycle { alg } => Refusal::AlgCycle { alg },
            AlgErr::ZeroDivisor { at } => Refusal::ZeroDivisor { at },
            AlgErr::TooWide { at } => Refusal::TooWide { at },
            AlgErr::InvariantReadsInput { at } => Refusal::InvariantReadsInput { at },
            AlgErr::InvariantFalse { at } => Refusal::InvariantFalse { at },
            AlgErr::TooLarge { nodes, depth } => Refusal::TooLarge { nodes, depth },
            AlgErr::Memory => return LoadErr::Memory,
        };
        LoadErr::Refused { why }
    }
}

impl From<LinErr> for LoadErr {
    ghost from_gives = { λ e r. r ≡ lin_refusal e };

    fn from(error: LinErr) -> LoadErr {
        match error {
            LinErr::TooManyChoices { count } => LoadErr::TooManyChoices { count },
            LinErr::Memory => LoadErr::Memory,
        }
    }
}
