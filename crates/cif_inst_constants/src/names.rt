//! The values of names, from the values of constants.

ghost use Rattle.std.specs.Prelude.{◌≡◌};
ghost use Rattle.cif_inst_constants.specs.Named.{value_at, what_value, looked_value, name_value};

use crate::numbering::number_at;
use cif_ast::Name;
use cif_base::Items;
use cif_scope::{Looked, Scopes, Sort, What};

/// The values of the names of a body, from those of constants: `numbers` has for each name of each body its number, if it is a
/// constant, and `values` the values of constants by their numbers.
#[derive(Clone, Copy)]
pub struct NameValues<'a> {
    pub scopes: &'a Scopes,
    pub numbers: &'a [Items<u32>],
    pub values: &'a [i64],
    pub body: u32,
}

/// The value of a number, and 0 past the end.
fn value_at(values: &[i64], number: u32) -> i64
    ensures { result ≡ value_at values.now number }
{
    match values.get(number as usize) {
        Some(value) => *value,
        None => 0,
    }
}

/// The value of what a name is, where it is a constant with that number.
fn what_value(values: &[i64], number: u32, what: Option<What>) -> i64
    ensures { result ≡ what_value values.now number what }
{
    match what {
        Some(What::Declared(sort)) => match sort {
            Sort::Constant => value_at(values, number),
            Sort::Type
            | Sort::Enum
            | Sort::Event(_)
            | Sort::Algebraic
            | Sort::Input
            | Sort::Discrete => 0,
        },
        Some(What::Literal(place)) => i64::from(place),
        Some(
            What::Location(_)
            | What::Component(_)
            | What::Definition(_, _)
            | What::Instance(_)
            | What::Parameter(_),
        )
        | None => 0,
    }
}

impl<'a> NameValues<'a> {
    fn found(&self, found: Looked) -> i64
        ensures { result ≡ looked_value self.now.scopes.now self.now.numbers.now self.now.values.now found }
    {
        match found {
            Looked::At(body, slot) => {
                let number = number_at(self.numbers, body, slot);
                what_value(self.values, number, self.scopes.what(body, slot))
            }
            Looked::Missing | Looked::Blocked => 0,
        }
    }

    /// The value of what a name finds: of a constant or a literal, and 0 of anything else.
    pub fn of(&self, name: &Name) -> i64
        ensures { result ≡ name_value self.now name.now }
    {
        self.found(self.scopes.look(true, self.body, name))
    }
}
