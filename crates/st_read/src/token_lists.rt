//! Cutting a text of Structured Text into its pieces.
ghost use Rattle.std.specs.Prelude.{◌≡◌, List};
ghost use Rattle.grammar.specs.Pieces.{Text};
ghost use Rattle.st_ast.specs.Tokens.{Token, Tokens};

/// A text has at most one list of tokens.
pub fn one_token_list()
    ensures { (text : Text) (a b : List Token) → Tokens text a → Tokens text b → a ≡ b }
{}
