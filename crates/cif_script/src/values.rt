//! The values that the lines of a script give to inputs.

ghost use Rattle.std.specs.Prelude.{◌≡◌, option_map, pos};
ghost use Rattle.cif_base.specs.declared.types.Ty.{Ty};
ghost use Rattle.cif_sim_model.specs.Names.{numbers, truths};
ghost use Rattle.cif_sim_model.specs.Script.{number_of, value_read};
ghost use Rattle.cif_sim_names.specs.Nets.{values_of};

use cif_base::{Text, Ty, read_int};

/// The value of a type with these literals that a word stands for.
pub fn value_of(ty: Ty, literals: &[Text], word: &[u8]) -> Option<i64>
    ensures { result ≡ value_read (values_of ty literals.now) word.now }
{
    match ty {
        Ty::Bool => truth_of(word),
        Ty::Int { .. } => number_in(word),
        Ty::Enum { .. } => literal_of(literals, word),
    }
}

/// 1 for `true` and 0 for `false`.
fn truth_of(word: &[u8]) -> Option<i64>
    ensures { result ≡ value_read truths word.now }
{
    if word == b"true".as_slice() {
        Some(1)
    } else if word == b"false".as_slice() {
        Some(0)
    } else {
        None
    }
}

/// The number of a canonical decimal of 64 bits.
fn number_in(word: &[u8]) -> Option<i64>
    ensures { result ≡ value_read numbers word.now }
{
    read_int(word)
}

/// The place of the first literal with this name.
fn literal_of(literals: &[Text], word: &[u8]) -> Option<i64>
    ensures { result ≡ option_map (λ x. pos x.0) (number_of (λ l. l) word.now literals.now) }
{
    for (place, literal) in literals.iter().enumerate() {
        if literal.as_slice() == word {
            return Some(place as i64);
        }
    }
    None
}
