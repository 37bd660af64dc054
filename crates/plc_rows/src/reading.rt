//! The rows of a rows file, and the cases of a cases file.

ghost use Rattle.std.specs.Prelude.{◌≡◌, ◌≤◌, [], List, length, IfOk, IfErr};
ghost use Rattle.grammar.specs.Pieces.{Text};
ghost use Rattle.plc_rows.specs.Rows.{CasesOf, RowsOf, ScanRule, file_fault, records_of};
ghost use Rattle.plc_rows.specs.Standing.{Begins, IsHeader, Stands};
ghost use Rattle.plc_rows.specs.Told.{IsFirst, IsFirstCase, Tells, cases_of, cells_of};

use crate::casing::Casing;
use crate::cells::{number_at, read_row};
use crate::error::RowErr;
use crate::header::{Column, read_header, scan_place};
use crate::numbering::Numbering;
use crate::records::{next_record, records};
use crate::row::{Cases, Rows};
use cif_base::Items;
use csv::{ByteRecord, Reader};
use st_check::Checked;
use std::alloc::Global;

/// The most rows of a file.
const MOST_ROWS: u32 = 100_000;

/// The columns of the header, which is the first record of a text.
fn first_columns(
    alloc: Global,
    program: &Checked,
    reader: &mut Reader<&[u8]>,
    record: &mut ByteRecord,
) -> Result<Items<Column>, RowErr>
    requires { (text : Text) × Begins text reader.old }
    ensures header { IfOk result (IsHeader program.now.vars) }
    ensures stands { IfOk result (λ cols. (scan : ScanRule) (text : Text) → Begins text reader.old →
        Stands scan program.now.vars cols text reader.new 0 1 [] []) }
    ensures refused { IfErr result (λ e. (scan : ScanRule) (text : Text) → Begins text reader.old →
        Tells (file_fault scan program.now.vars (records_of text)) e) }
{
    if !next_record(reader, record)? {
        return Err(RowErr::Header { column: 1 });
    }
    read_header(alloc, program, record)
}

/// The rows of a text of at most 64 MiB, of values for the inputs of a program. The first broken rule in the order of the
/// file is told: that of the header, then that of each row, its length before its cells.
pub fn read_rows(alloc: Global, text: &[u8], program: &Checked) -> Result<Rows, RowErr>
    requires size { length text.now ≤ 67108864 }
    ensures rows { IfOk result (λ r. RowsOf program.now.vars text.now (cells_of r.rows)) }
    ensures refused { IfErr result (IsFirst program.now.vars text.now) }
{
    let mut reader = records(alloc, text);
    let mut record = ByteRecord::new(alloc);
    let columns = first_columns(alloc, program, &mut reader, &mut record)?;
    let inputs = program.inputs().len();
    let mut rows = Items::new(alloc);
    let mut number = 1;
    while next_record(&mut reader, &mut record)? {
        if number > MOST_ROWS {
            return Err(RowErr::TooManyRows {
                count: MOST_ROWS + 1,
            });
        }
        rows.push(read_row(
            alloc,
            columns.as_slice(),
            inputs,
            Numbering::ByFile,
            number,
            &record,
        )?)?;
        number += 1;
    }
    Ok(Rows { rows })
}

/// The cases of a text of at most 64 MiB, of rows of values for the inputs of a program. A row with the number 1 begins a case.
/// The first broken rule is told as of rows, in a row its boundary last.
pub fn read_cases(alloc: Global, text: &[u8], program: &Checked) -> Result<Cases, RowErr>
    requires size { length text.now ≤ 67108864 }
    ensures cases { IfOk result (λ c. CasesOf program.now.vars text.now (cases_of c.cases)) }
    ensures refused { IfErr result (IsFirstCase program.now.vars text.now) }
{
    let mut reader = records(alloc, text);
    let mut record = ByteRecord::new(alloc);
    let header = first_columns(alloc, program, &mut reader, &mut record)?;
    let columns = header.as_slice();
    let inputs = program.inputs().len();
    let place = scan_place(columns);
    let mut cases = Casing::new(alloc);
    let mut row = 1;
    while next_record(&mut reader, &mut record)? {
        if row > MOST_ROWS {
            return Err(RowErr::TooManyRows {
                count: MOST_ROWS + 1,
            });
        }
        let values = read_row(alloc, columns, inputs, Numbering::ByCase, row, &record)?;
        let number = number_at(&record, place);
        if !cases.may_have(number) {
            return Err(RowErr::CaseBoundary { row });
        }
        cases.put(alloc, number, values)?;
        row += 1;
    }
    Ok(cases.into_cases()?)
}
