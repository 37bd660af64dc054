//! The laws, each the contract of a function without a body.

ghost use Rattle.std.specs.Prelude.{◌≡◌, map};
ghost use Rattle.cif_net_model.specs.Listing.{guarded_of, linear_of};
ghost use Rattle.cif_net_model.specs.Table.{IsGuarded, IsLinear};
ghost use Rattle.cif_net.specs.View.{net_tree, choice_tree};
ghost use Rattle.cif_net.specs.declared.guarded.Guarded.{Guarded};
ghost use Rattle.cif_net.specs.declared.plain.Plain.{Plain};

/// The choices of a guarded net are those that are defined for its net.
pub fn guarded_choices_are_those_of_the_net()
    ensures { (g : Guarded) → map choice_tree g.choices ≡ guarded_of (net_tree g.plain.net) }
{}

/// The choices of a guarded net make its steps: they are the choices of its system, each once and in their order, what one
/// sends and assigns is what its edges do, and in each state its test holds where it agrees with its event and the
/// exclusions permit that. Of each choice the expressions stand in the net, in 64 bits.
pub fn guarded_choices_make_steps()
    ensures { (g : Guarded) → IsGuarded (net_tree g.plain.net) (map choice_tree g.choices) }
{}

/// So do the choices of a plain net without exclusions and state invariants, whose tests hold where they agree.
pub fn linear_choices_make_steps()
    ensures { (plain : Plain) → IsLinear (net_tree plain.net) (linear_of (net_tree plain.net)) }
{}
