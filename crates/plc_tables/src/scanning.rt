//! The scans of a program over rows.

ghost use Rattle.std.specs.Prelude.{◌≡◌, ◌<◌, ◌^◌, All, length, map, IfOk, IfErr};
ghost use Rattle.st_ast.specs.Interface.{is_output, numbers_of, output_values};
ghost use Rattle.st_ast.specs.Scan.{later_memories, start_memory};
ghost use Rattle.st_ast.specs.View.{view};
ghost use Rattle.plc_rows.specs.Told.{cells_of};
ghost use Rattle.plc_tables.specs.Scans.{AllEnd, IsStopped};

use crate::stopped::Stopped;
use cif_base::{Items, Memory};
use plc_rows::Row;
use st_check::Checked;
use st_scan::Machine;
use std::alloc::Global;

/// The values of the outputs.
fn outputs(alloc: Global, machine: &Machine<'_>) -> Result<Row, Memory>
    ensures values { IfOk result (λ row. row.cells ≡ output_values machine.now.program.vars machine.now.memory) }
    ensures number { IfOk result (λ row. length row.cells ≡ length (numbers_of is_output 0 machine.now.program.vars)) }
{
    let mut cells = Items::new(alloc);
    for k in 0..machine.program().outputs().len() as u32 {
        cells.push(machine.output(k))?;
    }
    Ok(Row { cells })
}

/// The values of the outputs after each scan.
pub fn scans(alloc: Global, program: &Checked, rows: &[Row]) -> Result<Items<Row>, Stopped>
    requires { length rows.now < 2 ^ 32 }
    ensures all { IfOk result (λ shown. AllEnd (view program.now) (cells_of rows.now)) }
    ensures values { IfOk result (λ shown. cells_of shown ≡ map (output_values program.now.vars)
        (later_memories (view program.now) (start_memory (view program.now)) (cells_of rows.now))) }
    ensures number { IfOk result (λ shown. All (λ row. length row.cells ≡ length (numbers_of is_output 0 program.now.vars)) shown) }
    ensures stops { IfErr result (IsStopped (view program.now) (cells_of rows.now)) }
{
    let mut machine = Machine::new(alloc, program)?;
    let mut shown = Items::new(alloc);
    for (k, row) in rows.iter().enumerate() {
        if let Err(error) = machine.scan(row.cells.as_slice()) {
            return Err(Stopped::Scan {
                row: k as u32 + 1,
                error,
            });
        }
        shown.push(outputs(alloc, &machine)?)?;
    }
    Ok(shown)
}
