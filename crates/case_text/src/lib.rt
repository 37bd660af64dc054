//! The notation of cases: what the programs of cases read from their standard input, and how they print what a call answers. A
//! program of cases hands `run` what answers its calls, and all else is here.
//!
//! A line is printed as it stands, and the answer, each line of it behind two blanks, below it. A line is one of
//!
//! - empty, or `# TEXT`: what the cases below it show;
//! - `let NAME TEXT`: the name of a text;
//! - `CALL FIELD | FIELD ..`: a case;
//! - `each CALL FIELD | ..`: a case for each byte, of which `{byte}` is the text. Bytes in a row with the same answer are told
//!   together, as `41 to 5a`;
//! - `times CALL FIELD | ..`: a case for each number `{n}` from 0 on, up to the first whose answer is the one where `{n}` is empty, as
//!   of faults that come too late;
//! - `prefixes TEXT CALL FIELD | ..`: a case for each beginning `{prefix}` of a text, told by its exit code alone.
//!
//! In a TEXT stand `{NAME}` for a named text, `{400*TEXT}` for a text so many times, `{1..100:TEXT}` for each number with the
//! text behind it, and escapes: `\n`, `\r`, `\t`, `\xHH`, `\\`, `\{`, `\}`, and `\e` for nothing, which keeps blanks at an
//! end. Braces nest. A bar is written `\x7c`. Bytes are printed line by line behind a label, as `out|`; a last line without a line
//! feed ends in `\`. An error is printed as it is named and written in the code.
#![tactic(auto)]

mod fault;
mod fields;
mod files;
mod groups;
mod page;
mod script;
mod stream;
mod texts;

pub use fault::Fault;
pub use fields::{Fields, first_word, number};
pub use files::file;
pub use page::{Put, put_lines, put_text};
pub use stream::run;
