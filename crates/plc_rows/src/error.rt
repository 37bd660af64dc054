//! Why a rows file or a cases file is refused.

ghost use Rattle.std.specs.Prelude.{◌≡◌};
ghost use Rattle.plc_rows.specs.declared.error.RowErr.TheVariants.{Memory as no_memory};

use cif_base::Memory;

/// The first rule that a file breaks, with columns and rows counted from 1; or memory ran out.
#[derive(Clone, Copy, Debug, PartialEq, Eq)]
pub enum RowErr {
    /// The field of the header in that column is no wanted name or repeats an earlier one; or a wanted name is missing, and
    /// the column is the one after the last.
    Header { column: u32 },
    /// The cell breaks the rule of its column.
    Cell { row: u32, column: u32 },
    /// The row has another number of fields than the header.
    RowLength { row: u32 },
    /// The file has more than 100,000 rows; `count` is 100,001.
    TooManyRows { count: u32 },
    /// In a cases file alone: the number of the row is neither 1 nor one more than that of the row before.
    CaseBoundary { row: u32 },
    Memory,
}

impl From<Memory> for RowErr {
    ghost from_gives = { λ _ e. e ≡ no_memory };

    fn from(_error: Memory) -> RowErr {
        RowErr::Memory
    }
}
