//! Laws of sources and their trees.

ghost use Rattle.std.specs.Prelude.{◌≡◌};
ghost use Rattle.grammar.specs.Pieces.{Text};
ghost use Rattle.cif_ast.specs.declared.components.Spec.{Spec};
ghost use Rattle.cif_parse.specs.Grammar.{Reads};

/// A text reads as at most one tree.
pub fn one_tree()
    ensures { (text : Text) (a b : Spec) → Reads text a → Reads text b → a ≡ b }
{}
