//! Cases of files and sinks in memory that never fail, and of whole numbers in decimal.

use case_text::{Fault, Fields, Put, file, first_word, number, put_lines};
use cif_base::read_int;
use cif_io::{Files, MemFile, SureFiles, SureSink, put_all};

/// The files of the fields `file NAME TEXT`.
fn held(fields: &Fields<'_>) -> Result<Vec<MemFile>, Fault> {
    let mut held = Vec::new(fields.alloc);
    for field in fields.others() {
        if let ("file", rest) = first_word(field) {
            held.push(file(fields, rest)?)?;
        }
    }
    Ok(held)
}

/// The text, put into a sink.
fn put_sink(fields: &Fields<'_>, page: &mut String) -> Result<(), Fault> {
    let text = fields.text()?;
    let mut sink = SureSink::new(fields.alloc);
    let ended = put_all(&mut sink, text.as_slice());
    writeln!(page, "  {ended:?}")?;
    Ok(put_lines(page, "sink", sink.as_slice())?)
}

/// One read of a file, `NAME LIMIT`, into what was read before.
fn put_read(
    files: &mut SureFiles,
    field: &str,
    into: &mut Vec<u8>,
    page: &mut String,
) -> Result<(), Fault> {
    let (name, limit) = first_word(field);
    let limit = u64::from(number(limit)?);
    let ended = files.read(name, limit, into);
    writeln!(page, "  {ended:?}")?;
    Ok(put_lines(page, "into", into.as_slice())?)
}

/// `sure TEXT | file NAME TEXT | read NAME LIMIT`: the text is put into a sink, and files are read one after the other, into a byte that is
/// there before.
pub fn sure_case(fields: &Fields<'_>, page: &mut String) -> Result<(), Fault> {
    put_sink(fields, page)?;
    let mut files = SureFiles::new(held(fields)?);
    let mut into = Vec::from_slice(fields.alloc, b"x")?;
    for field in fields.others() {
        if let ("read", rest) = first_word(field) {
            put_read(&mut files, rest, &mut into, page)?;
        }
    }
    Ok(())
}

/// `int TEXT`: the number that a text is in canonical decimal.
pub fn int_case(fields: &Fields<'_>, page: &mut String) -> Result<(), Fault> {
    let text = fields.text()?;
    Ok(writeln!(page, "  {:?}", read_int(text.as_slice()))?)
}
