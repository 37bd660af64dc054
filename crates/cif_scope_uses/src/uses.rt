//! Names with the sorts that their positions ask for.

use cif_ast::Name;

/// What the position of a name asks for: `Variable` where it is assigned, `Value` where it is read. `Any` is no sort: that of
/// an argument that is a bare name and has no parameter.
#[derive(Clone, Copy, Debug, PartialEq, Eq)]
pub enum Asked {
    Event,
    Location,
    Type,
    Definition,
    Variable,
    Value,
    Any,
}

/// A name where it is written, and what its position asks for.
#[derive(Clone, Copy, Drop)]
pub struct Use<'a> {
    pub name: &'a Name,
    pub asks: Asked,
}
