//! Why there is no table.

ghost use Rattle.std.specs.Prelude.{◌≡◌};
ghost use Rattle.plc_tables.specs.declared.stopped.Stopped.TheVariants.{NoMemory};

use cif_base::Memory;
use st_scan::ScanErr;

/// Why the scans over rows have no table: the scan of a row, counted from 1, ended early; or want of memory.
#[derive(Clone, Copy, Debug, PartialEq, Eq)]
pub enum Stopped {
    Scan { row: u32, error: ScanErr },
    NoMemory,
}

impl From<Memory> for Stopped {
    ghost from_gives = { λ _ e. e ≡ NoMemory };

    fn from(_error: Memory) -> Stopped {
        Stopped::NoMemory
    }
}
