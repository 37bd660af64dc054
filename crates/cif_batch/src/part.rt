//! What one worker does.

ghost use Rattle.std.specs.Prelude.{◌≡◌, ◌+◌, ◌<◌, ◌^◌, length, All, IfOk, IfErr};
ghost use Rattle.st_ast.specs.View.{view};
ghost use Rattle.plc_rows.specs.Told.{cases_of};
ghost use Rattle.plc_rows.specs.declared.row.Rows as rows;
ghost use Rattle.cif_batch.specs.CaseTexts.{AreCaseTexts};
ghost use Rattle.cif_batch.specs.Parts.{StopsFrom};

use crate::error::CaseErr;
use crate::gate::Gate;
use cif_base::{Items, Text};
use plc_rows::Rows;
use plc_tables::{Stopped, table};
use st_check::Checked;
use std::alloc::Global;

/// The tables of the cases of one worker, the first of which has the number after `start`. The work of each begins at the gate.
pub fn texts_of_part<G: Gate>(
    alloc: Global,
    program: &Checked,
    start: usize,
    cases: &[Rows],
    gate: &G,
) -> Result<Items<Text>, CaseErr>
    requires few { start + length cases.now < 2 ^ 32 }
    requires few_rows { All (λ (c : rows.Rows). length c.rows < 2 ^ 32) cases.now }
    ensures texts { IfOk result (AreCaseTexts (view program.now) (cases_of cases.now)) }
    ensures stops { IfErr result (StopsFrom (view program.now) start (cases_of cases.now)) }
{
    let mut texts = Items::new(alloc);
    for (k, case) in cases.iter().enumerate() {
        let number = (start + k) as u32 + 1;
        gate.enter(number);
        match table(alloc, program, case.rows.as_slice()) {
            Ok(text) => texts.push(Text::from_vec(text))?,
            Err(Stopped::Scan { row, error }) => {
                return Err(CaseErr::Fault {
                    case: number,
                    row,
                    error,
                });
            }
            Err(Stopped::NoMemory) => return Err(CaseErr::Memory),
        }
    }
    Ok(texts)
}
