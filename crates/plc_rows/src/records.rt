//! The records of a text, one after the other.

ghost use Rattle.std.specs.Prelude.{List, IfOk};
ghost use Rattle.grammar.specs.Pieces.{Text};
ghost use Rattle.csv.specs.Records.{fields_of};
ghost use Rattle.plc_rows.specs.Rows.{records_of};
ghost use Rattle.plc_rows.specs.Left.{Left, Next};

use cif_base::Memory;
use csv::{ByteRecord, Reader, ReaderBuilder};
use std::alloc::Global;

/// A reader that stands before the first record of a text.
pub fn records(alloc: Global, text: &[u8]) -> Reader<&[u8]>
    ensures { Left result (records_of text.now) }
{
    ReaderBuilder::new()
        .has_headers(false)
        .flexible(true)
        .from_reader(alloc, text)
}

/// Reads the next record into `into`, and tells whether there was one. Records may differ in length, and a text in memory
/// never fails to be read, so that no other error than want of memory comes.
pub fn next_record(reader: &mut Reader<&[u8]>, into: &mut ByteRecord) -> Result<bool, Memory>
    ensures { IfOk result (λ found. (rs : List (List Text)) → Left reader.old rs →
        Next found (fields_of into.new) reader.new rs) }
{
    let Ok(found) = reader.read_byte_record(into) else {
        return Err(Memory);
    };
    Ok(found)
}
