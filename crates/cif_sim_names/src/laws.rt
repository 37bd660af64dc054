//! The laws of the definitions, each the contract of a function without a body.

ghost use Rattle.std.specs.Prelude.{◌≡◌, ℕ, ℤ, ◌-◌, ◌≤◌, [], true, Some, slice_get};
ghost use Rattle.cif_source.specs.Source.{Source};
ghost use Rattle.cif_system.specs.System.{State};
ghost use Rattle.cif_system.specs.Choices.{first_step};
ghost use Rattle.cif_net_model.specs.Net.{Net};
ghost use Rattle.cif_net_model.specs.Facts.{is_net};
ghost use Rattle.cif_net_model.specs.Inline.{Unfolds};
ghost use Rattle.cif_net_model.specs.Meaning.{system_of_net};
ghost use Rattle.cif_inst_model.specs.Flat.{net_of_source};
ghost use Rattle.cif_sim_names.specs.Nets.{names_of_net, net_numbered_all, told_of_net, variable_path_in};
ghost use Rattle.cif_net_model.specs.Exprs.{targets};
ghost use Rattle.cif_net_expr.specs.Tree.{NetUpdates};
ghost use Rattle.cif_why_model.specs.Told.{Assigned};
ghost use Rattle.cif_why_model.specs.Reasons.{reasons_of};
ghost use Rattle.cif_why_model.specs.Telling.{TellsOf};
ghost use Rattle.cif_sim_names.specs.Sources.{names_of};

/// The net of a source is told by the names of the source.
pub fn net_has_the_names()
    ensures { (t : Source) → names_of_net (net_of_source t) ≡ names_of t }
{}

/// A net in which algebraic variables are replaced keeps its names.
pub fn unfolded_nets_keep_names()
    ensures { (n p : Net) → Unfolds n p → names_of_net p ≡ names_of_net n }
{}

/// What is told of a net tells of each edge: its values that are assigned are those that the edge assigns, each with the number
/// of a value that goes to its variable.
pub fn nets_tell_of_their_edges()
    ensures { (n : Net) → is_net n ≡ true → TellsOf (variable_path_in n) (system_of_net n) (told_of_net n) }
{}

/// What updates assign has the number of its right side among all of theirs, behind the `k` values before them.
pub fn net_values_are_numbered()
    ensures { (n : Net) (s : State) (r : ℤ) (k : ℕ) (us : NetUpdates) (l : ℕ) (w : Assigned) → slice_get (net_numbered_all n s r k us) l ≡ Some w →
        (k ≤ w.number) × (slice_get (targets us) (w.number - k) ≡ Some w.variable) }
{}

/// There is no reason why an event of a net has no step only where it has one.
pub fn nets_tell_why()
    ensures { (n : Net) (s : State) (e : ℕ) → is_net n ≡ true → reasons_of (system_of_net n) (told_of_net n) s e ≡ [] →
        (next : State) × (first_step (system_of_net n) s e ≡ Some next) }
{}
