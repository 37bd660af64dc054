//! Rows files, cases files, and the table of the outputs of scans.
#![tactic(auto)]

mod casing;
mod cells;
mod error;
mod header;
mod laws;
mod numbering;
mod reading;
mod records;
mod row;
mod sharing;
mod table;

pub use error::RowErr;
pub use laws::{cases_are_in_range, cases_are_one, rows_are_in_range};
pub use reading::{read_cases, read_rows};
pub use row::{Cases, Row, Rows};
pub use sharing::{cases_are_shared, rows_are_shared};
pub use table::rows_text;
