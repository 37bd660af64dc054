//! The laws, each the contract of a function without a body.

ghost use Rattle.std.specs.Prelude.{◌≡◌, true};
ghost use Rattle.cif_net_model.specs.Facts.{is_net};
ghost use Rattle.cif_net_model.specs.Inline.{Unfolds};
ghost use Rattle.cif_net_model.specs.Net.{Net};
ghost use Rattle.cif_source.specs.Source.{Source};
ghost use Rattle.cif_source.specs.Step.{system_of};
ghost use Rattle.cif_inst_model.specs.Flat.{net_of_source};
ghost use Rattle.cif_why_model.specs.Telling.{TellsOf};
ghost use Rattle.cif_sim_names.specs.Nets.{told_of_net};
ghost use Rattle.cif_sim_names.specs.Sources.{names_of, told_of};
ghost use Rattle.cif_why_laws.specs.Acceptable.{IsAcceptable};
ghost use Rattle.cif_why_laws.specs.Reasons.{ExplainsSteps, variable_path};

/// What is told of a net in which algebraic variables are replaced is what is told of the net: values have the same places, paths
/// and numbers, and the same are assigned.
pub fn unfolded_nets_keep_what_is_told()
    ensures { (n p : Net) → is_net n ≡ true → Unfolds n p → told_of_net p ≡ told_of_net n }
{}

/// What is told of the net of an accepted source, with algebraic variables replaced, is what is told of the source.
pub fn nets_tell_of_their_sources()
    ensures { (t : Source) (n : Net) → IsAcceptable t → Unfolds (net_of_source t) n → told_of_net n ≡ told_of t }
{}

/// What is told of an accepted source tells of each edge: its values that are assigned are those that the edge assigns, each with the
/// number of a value that goes to its variable.
pub fn sources_tell_of_their_edges()
    ensures { (t : Source) → IsAcceptable t → TellsOf (variable_path (names_of t)) (system_of t) (told_of t) }
{}

/// An event of an accepted source has no reasons exactly where it has a step. Each of its reasons holds, and where it has no step,
/// each that holds is one of them.
pub fn sources_tell_why()
    ensures { (t : Source) → IsAcceptable t → ExplainsSteps (system_of t) (told_of t) }
{}
