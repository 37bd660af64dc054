//! The laws of the definitions, each the contract of a function without a body.

ghost use Rattle.cif_source.specs.Source.{Source};
ghost use Rattle.cif_scope.specs.Drafts as drafts;
ghost use Rattle.cif_scope.specs.Tables.{IsTable};

/// The scopes by numbers say of each body what its scope declares.
pub fn scopes_are_a_table()
    ensures { (t : Source) → IsTable t (drafts.scopes_of t) }
{}
