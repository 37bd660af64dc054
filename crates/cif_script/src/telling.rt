//! Locations and values under their paths.

ghost use Rattle.std.specs.Prelude.{◌≡◌, ◌++◌, OnOk};
ghost use Rattle.cif_sim_model.specs.Names.{literals as literals_named};
ghost use Rattle.cif_sim_model.specs.Texts as texts;
ghost use Rattle.cif_sim_names.specs.Nets.{auto_names, values_of};
ghost use Rattle.cif_net.specs.Parts.{auto_tree};
ghost use Rattle.cif_script.specs.Views.{stored_of};

use cif_base::{Memory, Text, Ty, put_int};
use cif_net::Auto;

/// Appends an automaton's path and the name of one of its locations, `*` for one without a name.
pub fn put_place(into: &mut Vec<u8>, auto: &Auto, place: u32) -> Result<(), Memory>
    ensures { OnOk result (into.new.items ≡ into.old.items ++ texts.place_told (auto_names (auto_tree auto.now), place)) }
{
    into.extend_from_slice(auto.path.as_slice())?;
    into.push(b'=')?;
    match auto.locs.get(place as usize) {
        Some(name) if name.is_empty() => into.push(b'*')?,
        Some(name) => into.extend_from_slice(name.as_slice())?,
        None => {}
    }
    Ok(())
}

/// Appends the path of a variable or an input of this type and its value.
pub fn put_value(
    into: &mut Vec<u8>,
    path: &Text,
    ty: Ty,
    literals: &[Text],
    value: i64,
) -> Result<(), Memory>
    ensures { OnOk result (into.new.items ≡ into.old.items ++ texts.value_told (stored_of path.now ty literals.now, value)) }
{
    into.extend_from_slice(path.as_slice())?;
    into.push(b'=')?;
    match ty {
        Ty::Bool if value == 1 => into.extend_from_slice(b"true")?,
        Ty::Bool => into.extend_from_slice(b"false")?,
        Ty::Int { .. } => put_int(into, value)?,
        Ty::Enum { .. } => put_literal(into, literals, value)?,
    }
    Ok(())
}

/// Appends the literal at a place, if there is one.
fn put_literal(into: &mut Vec<u8>, literals: &[Text], place: i64) -> Result<(), Memory>
    ensures { OnOk result (into.new.items ≡ into.old.items ++ texts.value_text (literals_named literals.now) place) }
{
    if let Some(name) = literals.get(place.unsigned_abs() as usize) {
        into.extend_from_slice(name.as_slice())?;
    }
    Ok(())
}
