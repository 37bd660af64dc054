//! The table of the scans over rows.

ghost use Rattle.std.specs.Prelude.{◌≡◌, ◌<◌, ◌^◌, length, IfOk, IfErr};
ghost use Rattle.st_ast.specs.View.{view};
ghost use Rattle.plc_rows.specs.Told.{cells_of};
ghost use Rattle.plc_tables.specs.Scans.{AllEnd, IsStopped, table_of};

use crate::scanning::scans;
use crate::stopped::Stopped;
use plc_rows::{Row, rows_text};
use st_check::Checked;
use std::alloc::Global;

/// The output table of the scans of a program over rows, from the memory of its declarations on; or the first scan that ends early.
pub fn table(alloc: Global, program: &Checked, rows: &[Row]) -> Result<Vec<u8>, Stopped>
    requires { length rows.now < 2 ^ 32 }
    ensures all { IfOk result (λ text. AllEnd (view program.now) (cells_of rows.now)) }
    ensures table { IfOk result (λ text. text.items ≡ table_of (view program.now) (cells_of rows.now)) }
    ensures stops { IfErr result (IsStopped (view program.now) (cells_of rows.now)) }
{
    let shown = scans(alloc, program, rows)?;
    Ok(rows_text(alloc, program, shown.as_slice())?)
}
