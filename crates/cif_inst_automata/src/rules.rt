//! The alphabets of a source whose automata keep the rules on their events.

ghost use Rattle.std.specs.Prelude.{◌≡◌, map, IfOk};
ghost use Rattle.std.specs.Result.{IfErr};
ghost use Rattle.cif_inst_names.specs.Looking.{source_for};
ghost use Rattle.cif_inst_paths.specs.Names.{AreMatchedNames};
ghost use Rattle.cif_inst_paths.specs.Rows.{rows_of};
ghost use Rattle.cif_inst_paths.specs.Views.{row_tree};
ghost use Rattle.cif_inst_automata.specs.Alphabets.{rows_alphabets};
ghost use Rattle.cif_inst_automata.specs.Rules.{due, KeepsAlphabets};

use crate::alphabets::{Alphabet, all_alphabets};
use crate::error::AutomataErr;
use crate::roles::check_roles;
use cif_base::Items;
use cif_inst_names::Looking;
use cif_inst_paths::Row;
use std::alloc::Global;

/// The alphabets of the automata among the components of a source, in their order. The error is an event outside the alphabet of an
/// automaton (14), or else an automaton in which an event has two roles (15). The time is linear in the source.
pub fn alphabets_of(
    alloc: Global,
    looking: &Looking<'_, '_>,
    rows: &[Row],
) -> Result<Items<Alphabet>, AutomataErr>
    requires names { AreMatchedNames looking.now }
    requires rows { map row_tree rows.now ≡ rows_of (source_for looking.now) }
    ensures found { IfOk result (λ all. all ≡ rows_alphabets looking.now 0 (map row_tree rows.now)) }
    ensures none { IfOk result (λ all. KeepsAlphabets (source_for looking.now)) }
    ensures refused { IfErr result (λ e. due (source_for looking.now) e) }
{
    let total = looking.numbers.total();
    let alphabets = all_alphabets(alloc, looking, rows, total.events as usize)?;
    check_roles(alloc, looking, alphabets.as_slice(), total.events as usize)?;
    Ok(alphabets)
}
