//! What the types keep, as laws that a proof reads off: each the contract of a function without a body.

ghost use Rattle.std.specs.Prelude.{◌≡◌, true, map};
ghost use Rattle.cif_net_model.specs.Facts.{is_net};
ghost use Rattle.cif_net_model.specs.Listing.{full_choices, listed};
ghost use Rattle.cif_net_model.specs.Meaning.{system_of_net};
ghost use Rattle.cif_net_model.specs.Rules.{is_plain};
ghost use Rattle.cif_net.specs.View.{net_tree, choice_tree};
ghost use Rattle.cif_net.specs.declared.guarded.Guarded.{Guarded};
ghost use Rattle.cif_net.specs.declared.net.Net.{Net};
ghost use Rattle.cif_net.specs.declared.plain.Plain.{Plain};

/// What a net stands for is a net.
pub fn nets_are_nets()
    ensures { (net : Net) → is_net (net_tree net) ≡ true }
{}

/// What a plain net stands for is a plain net.
pub fn plain_nets_are_plain()
    ensures { (plain : Plain) → is_plain (net_tree plain.net) ≡ true }
{}

/// The choices of a guarded net are those of its system, each once and in their order.
pub fn guarded_choices_are_listed()
    ensures { (g : Guarded) → full_choices (net_tree g.plain.net) (map choice_tree g.choices)
        ≡ listed (system_of_net (net_tree g.plain.net)) }
{}
