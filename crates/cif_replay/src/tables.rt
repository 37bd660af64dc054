//! From the text of rows to the table of the scans over them.

ghost use Rattle.std.specs.Prelude.{◌≡◌, ◌≤◌, ℕ, Some, length, IfOk, IfErr};
ghost use Rattle.st_ast.specs.View.{view};
ghost use Rattle.plc_rows.specs.Told.{cells_of};
ghost use Rattle.cif_run.specs.Groups.{IsUnlessMemory};
ghost use Rattle.cif_replay.specs.Told.{variable_of};
ghost use Rattle.cif_replay.specs.Ends.{IsNamed, ScanEnds};
ghost use Rattle.cif_replay.specs.Refusals.{row_status_of};
ghost use Rattle.cif_replay.specs.Replays.{RowsEnds};
ghost use Rattle.cif_replay.specs.Replaying.{AllEnd, IsTableOf, name_at, status_of_scan, table_of};

use crate::programs::name_of;
use cif_run::{Ended, Status};
use plc_rows::{Row, RowErr, read_rows};
use plc_tables::{Stopped, table};
use st_ast::StVar;
use st_check::Checked;
use st_scan::ScanErr;
use std::alloc::Global;

/// How a call ends whose rows are refused.
pub fn row_status(error: RowErr) -> Status
    ensures { result ≡ row_status_of error }
{
    match error {
        RowErr::Memory => Status::Memory,
        why => Status::RowRefused { why },
    }
}

/// How a call ends that a scan stops, of a program with these variables.
pub fn scan_ended(alloc: Global, vars: &[StVar], row: u32, error: ScanErr) -> Ended
    ensures status { IsUnlessMemory result.status (status_of_scan row error) }
    ensures named { (k : ℕ) → variable_of result.status ≡ Some k → result.variable ≡ name_at vars.now k }
{
    let number = match error {
        ScanErr::Budget => return Ended::plain(alloc, Status::Budget { row }),
        ScanErr::SubrangeLeft { variable, value: _ } => variable,
        fault => return Ended::plain(alloc, Status::ScanFault { row, fault }),
    };
    match name_of(alloc, vars, number) {
        Ok(variable) => Ended {
            status: Status::ScanFault { row, fault: error },
            variable,
            limit: 0,
        },
        Err(_) => Ended::plain(alloc, Status::Memory),
    }
}

/// The table of the scans of a program over rows, or how a call ends that has none.
fn table_of_rows(alloc: Global, program: &Checked, rows: &[Row]) -> Result<Vec<u8>, Ended>
    requires { length rows.now ≤ 100000 }
    ensures all { IfOk result (λ text. AllEnd (view program.now) (cells_of rows.now)) }
    ensures table { IfOk result (λ text. text.items ≡ table_of (view program.now) (cells_of rows.now)) }
    ensures ends { IfErr result (λ e. ScanEnds (view program.now) (cells_of rows.now) e.status) }
    ensures named { IfErr result (λ e. IsNamed (view program.now) e.status e.variable) }
{
    let vars = program.program().vars.as_slice();
    match table(alloc, program, rows) {
        Ok(text) => Ok(text),
        Err(Stopped::Scan { row, error }) => Err(scan_ended(alloc, vars, row, error)),
        Err(Stopped::NoMemory) => Err(Ended::plain(alloc, Status::Memory)),
    }
}

/// The table of the scans of a program over a text of rows.
#[tactic(auto, using(crate::proofs::EndLemmas::few_rows, crate::proofs::EndLemmas::row_ends, crate::proofs::EndLemmas::scan_ends, crate::proofs::EndLemmas::is_table))]
pub fn rows_table(alloc: Global, program: &Checked, text: &[u8]) -> Result<Vec<u8>, Ended>
    requires size { length text.now ≤ 67108864 }
    ensures table { IfOk result (λ table. IsTableOf (view program.now) text.now table.items) }
    ensures ends { IfErr result (λ e. RowsEnds (view program.now) text.now e.status) }
    ensures named { IfErr result (λ e. IsNamed (view program.now) e.status e.variable) }
{
    match read_rows(alloc, text, program) {
        Ok(rows) => table_of_rows(alloc, program, rows.rows.as_slice()),
        Err(error) => Err(Ended::plain(alloc, row_status(error))),
    }
}
