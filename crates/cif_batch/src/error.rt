//! Why there are no tables.

ghost use Rattle.std.specs.Prelude.{◌≡◌};
ghost use Rattle.cif_batch.specs.declared.error.CaseErr.TheVariants.{Memory as no_memory};

use cif_base::Memory;
use st_scan::ScanErr;
use std::alloc::AllocError;

/// Why there are no tables: the scan of that row of that case ended early, both counted from 1; or memory ran out.
#[derive(Clone, Copy, Debug, PartialEq, Eq)]
pub enum CaseErr {
    Fault { case: u32, row: u32, error: ScanErr },
    Memory,
}

impl From<Memory> for CaseErr {
    ghost from_gives = { λ _ e. e ≡ no_memory };

    fn from(_error: Memory) -> CaseErr {
        CaseErr::Memory
    }
}

impl From<AllocError> for CaseErr {
    ghost from_gives = { λ _ e. e ≡ no_memory };

    fn from(_error: AllocError) -> CaseErr {
        CaseErr::Memory
    }
}
