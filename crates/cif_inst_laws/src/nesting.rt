//! The law, the contract of a function without a body.

ghost use Rattle.std.specs.Prelude.{◌≡◌, true};
ghost use Rattle.cif_ast.specs.Shallow.{IsShallow};
ghost use Rattle.cif_ast.specs.declared.components.Spec.{Spec};
ghost use Rattle.cif_source.specs.Source.{source_of};
ghost use Rattle.cif_inst_model.specs.Flat.{net_of_source};
ghost use Rattle.cif_net_model.specs.Nesting.{is_shallow};

/// The updates of the net of a source that keeps to the limits of depth nest no deeper than those of the source.
pub fn shallow_trees_have_shallow_nets()
    ensures { (spec : Spec) → IsShallow spec → is_shallow (net_of_source (source_of spec)) ≡ true }
{}
