//! The lists of literals of the enumerations, and the kinds that they have by their numbers.

ghost use Rattle.std.specs.Prelude.{◌≡◌, ◌++◌, [], map, IfOk, OnOk};
ghost use Rattle.cif_types_table.specs.Lists as lists;

use crate::keys::Keys;
use crate::layout::NamedType;
use cif_ast::Ident;
use cif_base::{Items, Memory, Text};
use cif_scope::number;
use cif_types_kinds::Kind;
use std::alloc::Global;

/// The lists of literals of all enumerations, of which no two are equal, and for each type that has a name its kind where it is
/// an enumeration.
#[derive(Drop)]
pub struct Listed {
    pub lists: Items<Items<Text>>,
    pub kinds: Items<Kind>,
}

/// Adds a text to a key.
fn add_marked(bytes: &[u8], key: &mut Text) -> Result<(), Memory>
    ensures { OnOk result (key.new ≡ key.old ++ lists.marked bytes.now) }
{
    for byte in bytes {
        key.push(1)?;
        key.push(*byte)?;
    }
    key.push(0)
}

/// A text that no other list of literals has.
fn key_of(alloc: Global, literals: &[Ident]) -> Result<Text, Memory>
    ensures { IfOk result (λ k. k ≡ lists.key_of (lists.texts_of literals.now)) }
{
    let mut key = Text::new(alloc);
    for literal in literals {
        add_marked(literal.text.as_slice(), &mut key)?;
    }
    Ok(key)
}

fn texts_of(alloc: Global, literals: &[Ident]) -> Result<Items<Text>, Memory>
    ensures { IfOk result (λ all. all ≡ lists.texts_of literals.now) }
{
    let mut texts = Items::new(alloc);
    for literal in literals {
        texts.push(literal.text.copy(alloc)?)?;
    }
    Ok(texts)
}

/// The number of a list of literals, which is added where it is new.
fn list_number(
    alloc: Global,
    literals: &[Ident],
    keys: &mut Keys,
    all: &mut Items<Items<Text>>,
) -> Result<u32, Memory>
    requires { keys.old ≡ map lists.key_of all.old }
    ensures keys { OnOk result (keys.new ≡ map lists.key_of all.new) }
    ensures lists { OnOk result (all.new ≡ lists.with_list all.old (lists.texts_of literals.now)) }
    ensures number { IfOk result (λ n. n ≡ lists.list_number all.old (lists.texts_of literals.now)) }
{
    let key = key_of(alloc, literals)?;
    if let Some(place) = keys.place(&key) {
        return number(place);
    }
    let own = number(all.len())?;
    keys.add(key)?;
    all.push(texts_of(alloc, literals)?)?;
    Ok(own)
}

/// The lists of literals of these types, and the kinds of the enumerations.
pub fn number_lists(alloc: Global, types: &[NamedType<'_>]) -> Result<Listed, Memory>
    ensures lists { IfOk result (λ all. all.lists ≡ lists.lists_after [] types.now) }
    ensures kinds { IfOk result (λ all. all.kinds ≡ lists.listed_kinds [] types.now) }
{
    let mut keys = Keys::new(alloc);
    let mut lists = Items::new(alloc);
    let mut kinds = Items::new(alloc);
    for named in types {
        let kind = match named {
            NamedType::Synonym { .. } => Kind::None,
            NamedType::Enumeration { literals } => {
                Kind::Enum(list_number(alloc, literals, &mut keys, &mut lists)?)
            }
        };
        kinds.push(kind)?;
    }
    Ok(Listed { lists, kinds })
}
