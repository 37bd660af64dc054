//! The laws, each the contract of a function that does nothing but call the laws of expressions that it rests on.

ghost use Rattle.std.specs.Prelude.{◌≡◌, true};
ghost use Rattle.cif_net_model.specs.Facts.{is_net};
ghost use Rattle.cif_source.specs.Source.{Source};
ghost use Rattle.cif_inst_model.specs.Flat.{net_of_source};
ghost use Rattle.cif_inst_model.specs.Represents.{Represents};
ghost use Rattle.cif_inst_model.specs.Small.{HasSmallParts};
ghost use Rattle.cif_inst_model.specs.WellFormed.{KeepsBefore, algebraic};
ghost use Rattle.cif_inst_laws.specs.Forms.{HasSmallArguments};

use crate::{
    conditions_of_updates_keep_their_kind, expressions_keep_their_kinds, guards_keep_their_kind,
    sent_values_keep_their_kinds, values_of_updates_keep_their_kinds,
};

/// Where a source keeps its rules, and its numbers are small, what its net names is there, each expression has its kind, and so
/// on.
pub fn nets_of_sources_are_nets()
    ensures { (t : Source) → KeepsBefore t algebraic → HasSmallParts t → HasSmallArguments t →
        is_net (net_of_source t) ≡ true }
{
    expressions_keep_their_kinds();
    guards_keep_their_kind();
    values_of_updates_keep_their_kinds();
    conditions_of_updates_keep_their_kind();
    sent_values_keep_their_kinds();
}

/// Where it keeps its rules, its net has its choices, its steps and its outputs.
pub fn nets_represent_their_sources()
    ensures { (t : Source) → KeepsBefore t algebraic → Represents (net_of_source t) t }
{}
