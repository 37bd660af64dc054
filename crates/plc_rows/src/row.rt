//! Rows of values.

use cif_base::Items;

/// The values of a row, in the order of the inputs, or of the outputs, of a program. A BOOL is 0 or 1.
#[derive(Debug, Drop)]
pub struct Row {
    pub cells: Items<i64>,
}

/// The rows of a file or of a case, in its order.
#[derive(Debug, Drop)]
pub struct Rows {
    pub rows: Items<Row>,
}

/// The cases of a file, in its order.
#[derive(Debug, Drop)]
pub struct Cases {
    pub cases: Items<Rows>,
}
