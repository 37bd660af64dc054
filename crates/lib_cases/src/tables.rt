//! Cases of the output table.

ghost use Rattle.std.specs.Prelude.{◌≡◌, All, length, IfOk};

use case_text::{Fault, Fields, put_lines};
use cif_base::Items;
use plc_rows::{Row, rows_text};
use st_check::Checked;

/// The row of a field, which has so many values.
fn row(fields: &Fields<'_>, field: &str, count: usize) -> Result<Row, Fault>
    ensures { IfOk result (λ row. length row.cells ≡ count) }
{
    let cells = fields.wholes(field)?;
    if cells.len() != count {
        return Err(Fault::Form("not a value for each output"));
    }
    Ok(Row {
        cells: Items::from_vec(cells),
    })
}

/// The rows of the fields behind the first.
fn rows(fields: &Fields<'_>, count: usize) -> Result<Items<Row>, Fault>
    ensures { IfOk result (λ rows. All (λ row. length row.cells ≡ count) rows) }
{
    let mut all = Items::new(fields.alloc);
    for field in fields.others() {
        all.push(row(fields, field, count)?)?;
    }
    Ok(all)
}

/// `table PROGRAM | VALUE .. | VALUE ..`: the output table of a program, where its outputs have these values after each scan.
pub fn put_table(fields: &Fields<'_>, page: &mut String, program: &Checked) -> Result<(), Fault> {
    let rows = rows(fields, program.outputs().len())?;
    let text = rows_text(fields.alloc, program, rows.as_slice())?;
    Ok(put_lines(page, "table", text.as_slice())?)
}
