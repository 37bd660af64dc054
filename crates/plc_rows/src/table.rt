//! The output table.

ghost use Rattle.std.specs.Prelude.{◌≡◌, ◌++◌, [], ◌∷◌, ℤ, List, map, length, All, IfOk, IfSome, OnOk, decimal, codes};
ghost use Rattle.std.specs.Fmt.{signed_decimal};
ghost use Rattle.st_ast.specs.Interface.{is_output, numbers_of, outputs_of};
ghost use Rattle.st_ast.specs.declared.tree.StVar.{StVar};
ghost use Rattle.plc_rows.specs.Table.{output_table, names_text, header_text, line_text, cells_text, value_text};
ghost use Rattle.plc_rows.specs.Told.{cells_of};

use crate::row::Row;
use cif_base::{Memory, put_int};
use itoa::Buffer;
use st_ast::{StClass, StTy, StVar};
use st_check::Checked;
use std::alloc::Global;

/// The output table of a program, of the values of its outputs after each scan: the header `scan` and the names of the
/// outputs, and a line for each scan, of its number from 1 and the values. BOOL is `TRUE` or `FALSE`, integers are decimal.
pub fn rows_text(alloc: Global, program: &Checked, scans: &[Row]) -> Result<Vec<u8>, Memory>
    requires { All (λ r. length r.cells ≡ length (numbers_of is_output 0 program.now.vars)) scans.now }
    ensures { IfOk result (λ text. text.items ≡ output_table program.now.vars (cells_of scans.now)) }
{
    let outputs = outputs(alloc, program.program().vars.as_slice())?;
    let mut text = Vec::new(alloc);
    put_header(&mut text, outputs.as_slice())?;
    for (i, scan) in scans.iter().enumerate() {
        put_line(&mut text, outputs.as_slice(), i + 1, scan.cells.as_slice())?;
    }
    Ok(text)
}

/// The variables that are outputs.
fn outputs(alloc: Global, vars: &[StVar]) -> Result<Vec<&StVar>, Memory>
    ensures { IfOk result (λ outputs. map (λ v. v.now) outputs.items ≡ outputs_of vars.now) }
{
    let mut outputs = Vec::new(alloc);
    for var in vars {
        if matches!(var.class, StClass::Output) {
            outputs.push(var)?;
        }
    }
    Ok(outputs)
}

/// Appends the header.
fn put_header(text: &mut Vec<u8>, outputs: &[&StVar]) -> Result<(), Memory>
    ensures { OnOk result (text.new.items ≡ text.old.items ++ header_text (map (λ v. v.now) outputs.now)) }
{
    text.extend_from_slice(b"scan")?;
    for output in outputs {
        text.push(b',')?;
        text.extend_from_slice(output.name.as_slice())?;
    }
    text.push(b'\n')?;
    Ok(())
}

/// Appends the line of the scan of that number.
fn put_line(
    text: &mut Vec<u8>,
    outputs: &[&StVar],
    number: usize,
    cells: &[i64],
) -> Result<(), Memory>
    ensures { OnOk result (text.new.items ≡ text.old.items ++ line_text (map (λ v. v.now) outputs.now) number cells.now) }
{
    let mut buffer = Buffer::new();
    text.extend_from_slice(buffer.format(number).as_bytes())?;
    for (output, value) in outputs.iter().zip(cells) {
        text.push(b',')?;
        put_value(text, output.ty, *value)?;
    }
    text.push(b'\n')?;
    Ok(())
}

/// The decimal text of a number of one digit.
#[inline(always)]
#[tactic(auto, using(crate::proofs::Digits::digits))]
fn digit(value: i64) -> Option<u8>
    ensures { IfSome result (λ d. signed_decimal value ≡ d ∷ []) }
{
    if 0 <= value && value <= 9 {
        Some(b'0' + value as u8)
    } else {
        None
    }
}

/// Appends an integer.
#[inline(always)]
fn put_number(text: &mut Vec<u8>, value: i64) -> Result<(), Memory>
    ensures { OnOk result (text.new.items ≡ text.old.items ++ signed_decimal value) }
{
    match digit(value) {
        Some(digit) => {
            text.push(digit)?;
            Ok(())
        }
        None => put_int(text, value),
    }
}

/// Appends a value of that type.
fn put_value(text: &mut Vec<u8>, ty: StTy, value: i64) -> Result<(), Memory>
    ensures { OnOk result (text.new.items ≡ text.old.items ++ value_text ty value) }
{
    match ty {
        StTy::Bool => {
            let word: &[u8] = if value == 0 { b"FALSE" } else { b"TRUE" };
            text.extend_from_slice(word)?;
            Ok(())
        }
        StTy::Lint | StTy::Range { lo: _, hi: _ } => put_number(text, value),
    }
}
