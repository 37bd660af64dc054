//! The cells of a row.

ghost use Rattle.std.specs.Prelude.{◌≡◌, ℕ, ◌<◌, ◌≤◌, ◌^◌, pos, length, replicate, decimal, None, All, IfOk, IfErr};
ghost use Rattle.std.specs.Bool.{OnTrue};
ghost use Rattle.grammar.specs.Pieces.{same};
ghost use Rattle.csv.specs.Records.{fields_of};
ghost use Rattle.st_ast.specs.declared.tree.StTy.TheVariants as ty;
ghost use Rattle.plc_rows.specs.Rows as rows;
ghost use Rattle.plc_rows.specs.Columns.{place, stands, with_cell, with_cells, line_fault, rule_of, HasNumber};
ghost use Rattle.plc_rows.specs.Told.{Tells};

use crate::error::RowErr;
use crate::header::Column;
use crate::numbering::Numbering;
use crate::row::Row;
use cif_base::{Items, read_int};
use csv::ByteRecord;
use itoa::Buffer;
use st_ast::StTy;
use std::alloc::Global;

/// Whether a cell is the number of its row.
fn is_number(number: u32, cell: &[u8]) -> bool
    ensures { result ≡ same cell.now (decimal number) }
{
    let mut buffer = Buffer::new();
    cell == buffer.format(number).as_bytes()
}

/// The value of a cell of a BOOL.
fn truth(cell: &[u8]) -> Option<i64>
    ensures { result ≡ rows.truth_cell cell.now }
{
    if cell == b"TRUE".as_slice() || cell == b"true".as_slice() || cell == b"1".as_slice() {
        return Some(1);
    }
    if cell == b"FALSE".as_slice() || cell == b"false".as_slice() || cell == b"0".as_slice() {
        return Some(0);
    }
    None
}

/// The value of a cell of an integer from `lo` to `hi`.
fn within(lo: i64, hi: i64, cell: &[u8]) -> Option<i64>
    ensures { result ≡ rows.cell_value (ty.Range lo hi) cell.now }
{
    let value = read_int(cell)?;
    if lo <= value && value <= hi {
        Some(value)
    } else {
        None
    }
}

/// The value of a cell of an input of that type.
fn cell_value(ty: StTy, cell: &[u8]) -> Option<i64>
    ensures { result ≡ rows.cell_value ty cell.now }
{
    match ty {
        StTy::Bool => truth(cell),
        StTy::Lint => read_int(cell),
        StTy::Range { lo, hi } => within(lo, hi, cell),
    }
}

/// The number of a row in its case.
fn number_in_case(cell: &[u8]) -> Option<i64>
    ensures { result ≡ rows.cell_value rows.case_numbers cell.now }
{
    within(1, 100_000, cell)
}

/// Whether a cell may stand in the column `scan` of the row of that number.
fn scan_stands(numbering: Numbering, number: u32, cell: &[u8]) -> bool
    ensures { result ≡ (rule_of numbering).stands number cell.now }
{
    match numbering {
        Numbering::ByFile => is_number(number, cell),
        Numbering::ByCase => number_in_case(cell).is_some(),
    }
}

/// Puts the value of a cell in its place among those of the inputs; `false` where the cell breaks the rule of its column.
fn put_cell(
    cells: &mut Items<i64>,
    column: Column,
    numbering: Numbering,
    number: u32,
    cell: &[u8],
) -> bool
    requires { place column ≤ length cells.old }
    ensures stands { result ≡ stands (rule_of numbering) number column cell.now }
    ensures put { OnTrue result (cells.new ≡ with_cell column cell.now cells.old) }
{
    match column {
        Column::Scan => scan_stands(numbering, number, cell),
        Column::Input { rank, ty } => match cell_value(ty, cell) {
            Some(value) => {
                cells.set(rank as usize, value);
                true
            }
            None => false,
        },
    }
}

/// The row of that number in its file, of values for so many inputs. Its length is told before its first wrong cell.
pub fn read_row(
    alloc: Global,
    columns: &[Column],
    inputs: usize,
    numbering: Numbering,
    number: u32,
    row: &ByteRecord,
) -> Result<Row, RowErr>
    requires few { length columns.now < 2 ^ 32 }
    requires places { All (λ c. place c ≤ inputs) columns.now }
    ensures ok { IfOk result (λ r. (line_fault (rule_of numbering) columns.now number (fields_of row.now) ≡ None)
        × (r.cells ≡ with_cells columns.now (fields_of row.now) (replicate inputs (pos 0)))) }
    ensures err { IfErr result (Tells (line_fault (rule_of numbering) columns.now number (fields_of row.now))) }
{
    if row.len() != columns.len() {
        return Err(RowErr::RowLength { row: number });
    }
    let mut cells = Items::filled(alloc, 0, inputs)?;
    for (j, column) in columns.iter().enumerate() {
        let Some(cell) = row.get(j) else {
            unreachable!();
        };
        if !put_cell(&mut cells, *column, numbering, number, cell) {
            return Err(RowErr::Cell {
                row: number,
                column: j as u32 + 1,
            });
        }
    }
    Ok(Row { cells })
}

/// The number of a row in its case, which stands in that place.
pub fn number_at(row: &ByteRecord, place: usize) -> u32
    requires { (n : ℕ) × HasNumber (fields_of row.now) place n }
    ensures { HasNumber (fields_of row.now) place result }
{
    let Some(cell) = row.get(place) else {
        unreachable!();
    };
    let Some(number) = number_in_case(cell) else {
        unreachable!();
    };
    number as u32
}
