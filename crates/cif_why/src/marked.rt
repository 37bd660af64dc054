//! Reasons of marks.

ghost use Rattle.std.specs.Prelude.{◌≡◌, ◌++◌, ◌<◌, ◌^◌, length, map, OnOk};
ghost use Rattle.std.specs.List.{AllByRecursion};
ghost use Rattle.cif_why.specs.Marked.{AreFewRows, marks_told, row_told, rows_told};
ghost use Rattle.cif_why.specs.View.{reason_tree};

use crate::reason::{Reason, add_if};
use cif_base::{Items, Memory};

/// Adds the values that are marked.
pub(crate) fn add_marked(
    marks: &[Items<Items<bool>>],
    all: &mut Items<Reason>,
) -> Result<(), Memory>
    requires few { length marks.now < 2 ^ 32 }
    requires rows { AllByRecursion AreFewRows marks.now }
    ensures { OnOk result (map reason_tree all.new ≡ map reason_tree all.old ++ marks_told 0 marks.now) }
{
    for (automaton, rows) in marks.iter().enumerate() {
        add_rows(automaton as u32, rows.as_slice(), all)?;
    }
    Ok(())
}

/// Adds the values of edges of an automaton that are marked.
fn add_rows(automaton: u32, rows: &[Items<bool>], all: &mut Items<Reason>) -> Result<(), Memory>
    requires { AreFewRows rows.now }
    ensures { OnOk result (map reason_tree all.new ≡ map reason_tree all.old ++ rows_told automaton 0 rows.now) }
{
    for (edge, row) in rows.iter().enumerate() {
        add_row(automaton, edge as u32, row.as_slice(), all)?;
    }
    Ok(())
}

/// Adds the values of an edge that are marked.
fn add_row(automaton: u32, edge: u32, row: &[bool], all: &mut Items<Reason>) -> Result<(), Memory>
    requires { length row.now < 2 ^ 32 }
    ensures { OnOk result (map reason_tree all.new ≡ map reason_tree all.old ++ row_told automaton edge row.now) }
{
    for (number, leaves) in row.iter().enumerate() {
        let place = number as u32;
        add_if(
            all,
            *leaves,
            Reason::Leaves {
                auto: automaton,
                edge,
                place,
            },
        )?;
    }
    Ok(())
}
