//! The header of a rows file, as columns.

ghost use Rattle.std.specs.Prelude.{◌≡◌, ◌<◌, ◌≤◌, ◌^◌, length, IfOk, IfErr};
ghost use Rattle.csv.specs.Records.{fields_of};
ghost use Rattle.plc_rows.specs.Rows.{header_fault};
ghost use Rattle.plc_rows.specs.Columns as columns;
ghost use Rattle.plc_rows.specs.Told.{Tells};

use crate::error::RowErr;
use cif_base::{Items, Memory};
use csv::ByteRecord;
use st_ast::{StClass, StTy, StVar};
use st_check::Checked;
use std::alloc::Global;

/// A column of a rows file.
#[derive(Clone, Copy)]
pub enum Column {
    /// The number of the row.
    Scan,
    /// A value of an input, by its rank among the inputs from 0 on, and its type.
    Input { rank: u32, ty: StTy },
}

impl Column {
    /// The place of the column among all that a header may have: 0 for `scan`, and then the inputs.
    fn place(self) -> usize
        ensures { result ≡ columns.place self }
    {
        match self {
            Column::Scan => 0,
            Column::Input { rank, ty: _ } => rank as usize + 1,
        }
    }
}

/// For each variable the column of its values, if it is an input.
fn columns_of(alloc: Global, vars: &[StVar]) -> Result<Vec<Option<Column>>, Memory>
    requires { length vars.now < 2 ^ 32 }
    ensures { IfOk result (λ found. found.items ≡ columns.columns_from 0 vars.now) }
{
    let mut found = Vec::new(alloc);
    let mut rank: u32 = 0;
    for var in vars {
        if matches!(var.class, StClass::Input) {
            found.push(Some(Column::Input { rank, ty: var.ty }))?;
            rank += 1;
        } else {
            found.push(None)?;
        }
    }
    Ok(found)
}

/// The column of a name, if it is wanted in the spelling that it has; `known` are the columns of the variables.
fn column_of(
    alloc: Global,
    program: &Checked,
    known: &[Option<Column>],
    name: &[u8],
) -> Result<Option<Column>, Memory>
    requires { known.now ≡ columns.columns_from 0 program.now.vars }
    ensures { IfOk result (λ found. found ≡ columns.column_of program.now.vars name.now) }
{
    if name == b"scan".as_slice() {
        return Ok(Some(Column::Scan));
    }
    let Some(number) = program.find(alloc, name)? else {
        return Ok(None);
    };
    let var = &program.program().vars.as_slice()[number as usize];
    if var.name.as_slice() != name {
        return Ok(None);
    }
    Ok(known[number as usize])
}

/// The columns of a header, which has `scan` and each input once.
pub fn read_header(
    alloc: Global,
    program: &Checked,
    header: &ByteRecord,
) -> Result<Items<Column>, RowErr>
    requires { length (fields_of header.now) < 2 ^ 31 }
    ensures ok { IfOk result (λ found. columns.HeaderOf program.now.vars (fields_of header.now) found) }
    ensures err { IfErr result (Tells (header_fault program.now.vars (fields_of header.now))) }
{
    let known = columns_of(alloc, program.program().vars.as_slice())?;
    let wanted = program.inputs().len() + 1;
    let mut seen = Items::filled(alloc, false, wanted)?;
    let mut found = Items::new(alloc);
    while let Some(name) = header.get(found.len()) {
        let number = found.len() as u32 + 1;
        let Some(column) = column_of(alloc, program, known.as_slice(), name)? else {
            return Err(RowErr::Header { column: number });
        };
        if seen.replace(column.place(), true) {
            return Err(RowErr::Header { column: number });
        }
        found.push(column)?;
    }
    if found.len() < wanted {
        return Err(RowErr::Header {
            column: found.len() as u32 + 1,
        });
    }
    Ok(found)
}

/// The place of the column `scan`.
pub fn scan_place(header: &[Column]) -> usize
    ensures { result ≡ columns.scan_place header.now }
{
    let mut place = 0;
    while place < header.len() && matches!(header[place], Column::Input { .. }) {
        place += 1;
    }
    place
}
