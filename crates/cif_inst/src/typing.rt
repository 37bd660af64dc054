//! The paths and the types of what components declare.

ghost use Rattle.std.specs.Prelude.{◌≡◌, ◌++◌, IfOk};
ghost use Rattle.cif_inst_model.specs.Types.{net_type};
ghost use Rattle.cif_inst.specs.Typing as of_types;
ghost use Rattle.cif_inst.specs.Views.{datum_tree};
ghost use Rattle.cif_inst_types.specs.Types.{net_type_of};

use crate::declarations::Datum;
use cif_base::{Memory, Text};
use cif_inst_constants::Types;
use cif_inst_names::Looking;
use cif_inst_paths::body_number;
use cif_inst_types::{NetTy, type_of};
use std::alloc::Global;

/// What the names and types of a source are found in. `turns` bounds chains of synonyms: the declarations of its components + 1.
#[derive(Clone, Copy)]
pub struct Typing<'a, 'b> {
    pub looking: &'b Looking<'a, 'b>,
    pub types: &'b Types<'b>,
    pub turns: usize,
}

/// The path of what is declared.
pub(crate) fn path_of(alloc: Global, datum: &Datum) -> Result<Text, Memory>
    ensures { let d = datum_tree datum.now in IfOk result (λ p. p ≡ d.prefix ++ d.name.text) }
{
    let mut path = datum.prefix.copy(alloc)?;
    path.push_slice(datum.name.text.as_slice())?;
    Ok(path)
}

/// The number of the body of the component that declares it.
pub(crate) fn body_of(typing: &Typing, datum: &Datum) -> u32
    ensures { result ≡ of_types.body_in typing.now (datum_tree datum.now) }
{
    body_number(typing.looking.components, datum.component)
}

/// Its type in the net.
pub(crate) fn ty_of(alloc: Global, typing: &Typing, datum: &Datum) -> Result<NetTy, Memory>
    requires { of_types.HasType typing.now (datum_tree datum.now) }
    ensures { let d = datum_tree datum.now in IfOk result (λ x. net_type_of x ≡ net_type (of_types.typed_component typing.now d.component) d.type_of) }
{
    let body = body_of(typing, datum);
    type_of(alloc, typing.types, typing.turns, body, datum.ty)
}
