//! What is printed for bytes: one line for each of theirs, without a byte that is not seen.

use std::alloc::AllocError;

/// Whether a page had room.
pub type Put = Result<(), AllocError>;

/// A byte: itself where it is printable ASCII and no `\`, else an escape.
fn put_byte(page: &mut String, byte: u8) -> Put {
    match byte {
        b'\\' => page.push_str("\\\\"),
        b'\n' => page.push_str("\\n"),
        b' '..=b'~' => page.push(char::from(byte)),
        _ => write!(page, "\\x{byte:02x}"),
    }
}

/// A text in one line.
pub fn put_text(page: &mut String, bytes: &[u8]) -> Put {
    for byte in bytes {
        put_byte(page, *byte)?;
    }
    Ok(())
}

/// A text line by line, each behind its label. A last line without a line feed ends in `\`.
pub fn put_lines(page: &mut String, label: &str, bytes: &[u8]) -> Put {
    let mut is_open = false;
    for byte in bytes {
        if !is_open {
            write!(page, "  {label}|")?;
        }
        is_open = *byte != b'\n';
        if is_open {
            put_byte(page, *byte)?;
        } else {
            page.push('\n')?;
        }
    }
    if is_open {
        page.push_str("\\\n")?;
    }
    Ok(())
}
