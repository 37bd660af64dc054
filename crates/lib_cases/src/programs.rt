//! Cases of Structured Text programs.

ghost use Rattle.std.specs.Prelude.{◌≤◌, length};

use crate::copies::put_copied;
use crate::counting::count;
use crate::tables::put_table;
use case_text::{Fault, Fields, Put, put_lines, put_text};
use plc_rows::{Row, read_rows};
use st_ast::Program;
use st_check::{Checked, StCheckErr, check_program};
use st_print::print;
use st_read::{StErr, read};
use st_scan::Machine;
use std::alloc::Global;

/// The most bytes of a program and of a rows file.
const MOST_BYTES: usize = 16_777_216;

const MOST_ROWS: usize = 67_108_864;

/// Why there is no program.
#[derive(Clone, Copy)]
enum NoProgram {
    TooLong,
    Read(StErr),
    Check(StCheckErr),
    Fault(Fault),
}

impl From<Fault> for NoProgram {
    fn from(fault: Fault) -> NoProgram {
        NoProgram::Fault(fault)
    }
}

fn put_no_program(page: &mut String, why: NoProgram) -> Result<(), Fault> {
    match why {
        NoProgram::Fault(fault) => return Err(fault),
        NoProgram::TooLong => page.push_str("  too long\n")?,
        NoProgram::Read(error) => writeln!(page, "  {error:?}")?,
        NoProgram::Check(error) => writeln!(page, "  {error:?}")?,
    }
    Ok(())
}

fn text_program(alloc: Global, text: &[u8]) -> Result<Program, NoProgram> {
    if text.len() > MOST_BYTES {
        return Err(NoProgram::TooLong);
    }
    match read(alloc, text) {
        Ok(program) => Ok(program),
        Err(error) => Err(NoProgram::Read(error)),
    }
}

/// The program of a field.
fn program_of(fields: &Fields<'_>, field: &str) -> Result<Program, NoProgram> {
    let text = fields.bytes_of(field)?;
    text_program(fields.alloc, text.as_slice())
}

/// The program, checked.
fn checked(alloc: Global, program: Program) -> Result<Checked, NoProgram> {
    let statements = count(program.body.as_slice(), 0);
    if program.vars.len() >= 4_294_967_296 || statements.is_none() {
        return Err(NoProgram::TooLong);
    }
    match check_program(alloc, program) {
        Ok(checked) => Ok(checked),
        Err(error) => Err(NoProgram::Check(error)),
    }
}

/// The checked program of a field.
fn checked_of(fields: &Fields<'_>, field: &str) -> Result<Checked, NoProgram> {
    let program = program_of(fields, field)?;
    checked(fields.alloc, program)
}

fn put_sizes(page: &mut String, program: &Program) -> Put {
    page.push_str("  ")?;
    put_text(page, program.name.as_slice())?;
    let (variables, statements) = (program.vars.len(), program.body.len());
    write!(page, "; variables {variables}, statements {statements}\n")
}

/// The printed text of a program.
fn put_printed(alloc: Global, page: &mut String, program: &Program) -> Result<(), Fault> {
    let text = print(alloc, program)?;
    Ok(put_lines(page, "text", text.as_slice())?)
}

/// `read PROGRAM`: how many variables and statements there are; `print PROGRAM`: its printed text; `copy PROGRAM`.
pub fn program_case(call: &str, fields: &Fields<'_>, page: &mut String) -> Result<(), Fault> {
    match program_of(fields, fields.written(0)) {
        Err(why) => put_no_program(page, why),
        Ok(program) => match call {
            "read" => Ok(put_sizes(page, &program)?),
            "print" => put_printed(fields.alloc, page, &program),
            _ => put_copied(fields.alloc, page, &program),
        },
    }
}

fn put_numbers(page: &mut String, numbers: &[u32]) -> Put {
    for number in numbers {
        write!(page, " {number}")?;
    }
    Ok(())
}

/// The numbers of the inputs and the outputs.
fn put_interface(page: &mut String, program: &Checked) -> Put {
    let variables = program.program().vars.len();
    write!(page, "  variables {variables}, inputs")?;
    put_numbers(page, program.inputs())?;
    page.push_str(", outputs")?;
    put_numbers(page, program.outputs())
}

fn put_found(page: &mut String, name: &str, found: Option<u32>) -> Put {
    match found {
        Some(number) => write!(page, ", {name} {number}"),
        None => write!(page, ", {name} none"),
    }
}

/// `check PROGRAM | NAME ..`: its inputs and outputs, and the variables of these names.
fn put_checked(fields: &Fields<'_>, page: &mut String, program: &Checked) -> Result<(), Fault> {
    put_interface(page, program)?;
    for name in fields.written(1).split_whitespace() {
        let found = program.find(fields.alloc, name.as_bytes())?;
        put_found(page, name, found)?;
    }
    Ok(page.push('\n')?)
}

fn put_variables(page: &mut String, machine: &Machine<'_>) -> Put {
    let variables = machine.program().program().vars.len();
    for variable in 0..variables {
        if variable < 4_294_967_296 {
            let value = machine.value(variable as u32);
            write!(page, " {value}")?;
        }
    }
    Ok(())
}

fn put_outputs(page: &mut String, machine: &Machine<'_>) -> Put {
    let outputs = machine.program().outputs().len();
    for k in 0..outputs {
        if k < 4_294_967_296 {
            let value = machine.output(k as u32);
            write!(page, " {value}")?;
        }
    }
    Ok(())
}

/// The values of all variables, and of all outputs.
fn put_values(page: &mut String, machine: &Machine<'_>) -> Put {
    put_variables(page, machine)?;
    page.push_str("; outputs")?;
    put_outputs(page, machine)?;
    page.push('\n')
}

/// One scan over a row of values for the inputs.
fn put_scan(page: &mut String, machine: &mut Machine<'_>, row: &[i64]) -> Put {
    match machine.scan(row) {
        Ok(()) => page.push_str("  Ok")?,
        Err(error) => write!(page, "  {error:?}")?,
    }
    put_values(page, machine)
}

fn put_scans(
    fields: &Fields<'_>,
    page: &mut String,
    machine: &mut Machine<'_>,
) -> Result<(), Fault> {
    page.push_str("  start")?;
    put_values(page, machine)?;
    for field in fields.others() {
        let row = fields.wholes(field)?;
        put_scan(page, machine, row.as_slice())?;
    }
    Ok(())
}

/// `scan PROGRAM | VALUE .. | VALUE ..`: the values at the start and after each scan, over a row of these values for the
/// inputs.
fn put_machine(fields: &Fields<'_>, page: &mut String, program: &Checked) -> Result<(), Fault> {
    let mut machine = Machine::new(fields.alloc, program)?;
    put_scans(fields, page, &mut machine)
}

fn put_row_counts(page: &mut String, rows: &[Row]) -> Put {
    let mut cells = 0usize;
    for row in rows {
        cells = cells.saturating_add(row.cells.len());
    }
    let count = rows.len();
    write!(page, "  rows {count}, cells {cells}")
}

/// The values of each row, where there are any.
fn put_row_values(page: &mut String, rows: &[Row]) -> Put {
    for row in rows {
        if !row.cells.is_empty() {
            page.push_str(" |")?;
        }
        for value in row.cells.as_slice() {
            write!(page, " {value}")?;
        }
    }
    page.push('\n')
}

/// `rows TEXT | PROGRAM`: how many rows and cells a rows file has for the program, and the values.
fn put_rows(alloc: Global, page: &mut String, program: &Checked, text: &[u8]) -> Put {
    if text.len() > MOST_ROWS {
        return page.push_str("  too long\n");
    }
    match read_rows(alloc, text, program) {
        Err(error) => writeln!(page, "  {error:?}"),
        Ok(rows) => {
            put_row_counts(page, rows.rows.as_slice())?;
            put_row_values(page, rows.rows.as_slice())
        }
    }
}

/// The field of the program of a call; that whose rows are read has no inputs where the case names none.
fn program_field<'a>(call: &str, fields: &Fields<'a>) -> &'a str {
    if call != "rows" {
        return fields.written(0);
    }
    match fields.written(1) {
        "" => "PROGRAM p END_PROGRAM",
        program => program,
    }
}

/// A case of a checked program, or the first check that it breaks.
pub fn checked_case(call: &str, fields: &Fields<'_>, page: &mut String) -> Result<(), Fault> {
    match checked_of(fields, program_field(call, fields)) {
        Err(why) => put_no_program(page, why),
        Ok(program) => match call {
            "check" => put_checked(fields, page, &program),
            "scan" => put_machine(fields, page, &program),
            "table" => put_table(fields, page, &program),
            _ => {
                let text = fields.text()?;
                Ok(put_rows(fields.alloc, page, &program, text.as_slice())?)
            }
        },
    }
}
