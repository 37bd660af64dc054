//! Files in memory that a case writes.

use crate::fault::Fault;
use crate::fields::{Fields, first_word};
use cif_base::Text;
use cif_io::MemFile;

/// A file in memory, `NAME TEXT`.
pub fn file(fields: &Fields<'_>, text: &str) -> Result<MemFile, Fault> {
    let (name, bytes) = first_word(text);
    Ok(MemFile {
        name: Text::from_vec(fields.bytes_of(name)?),
        bytes: Text::from_vec(fields.bytes_of(bytes)?),
    })
}
