//! The laws, each the contract of a function without a body.

ghost use Rattle.cif_ast.specs.Countable.{IsCountable};
ghost use Rattle.cif_ast.specs.SmallNumbers.{HasSmallNumbers};
ghost use Rattle.cif_ast.specs.declared.components.Spec.{Spec};
ghost use Rattle.cif_source.specs.Source.{source_of};
ghost use Rattle.cif_inst_model.specs.Small.{HasSmallParts};
ghost use Rattle.cif_inst_laws.specs.Forms.{HasSmallArguments};

/// A specification that is counted, and in which no number and no enumeration is too large, has small parts.
pub fn counted_trees_have_small_parts()
    ensures { (spec : Spec) → IsCountable spec → HasSmallNumbers spec → HasSmallParts (source_of spec) }
{}

/// In the source of a specification in which no number is too large, none in an argument of an instance, in a sent value or in the
/// predicate of an invariant is.
pub fn trees_have_small_arguments()
    ensures { (spec : Spec) → HasSmallNumbers spec → HasSmallArguments (source_of spec) }
{}
