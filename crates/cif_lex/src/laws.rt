//! Laws of tokens.

ghost use Rattle.std.specs.Prelude.{◌≡◌, ◌≢◌, List, length};
ghost use Rattle.grammar.specs.Pieces.{Text};
ghost use Rattle.cif_lex.specs.Tokens.{Tokens, RefusalDue, SpansRise};
ghost use Rattle.cif_lex.specs.declared.error.LexErr.{LexErr};
ghost use Rattle.cif_lex.specs.declared.error.LexErr.TheVariants.{Memory as no_memory};
ghost use Rattle.cif_lex.specs.declared.token.Token.{Token};

/// A text has at most one list of tokens.
pub fn one_token_list()
    ensures { (text : Text) (a b : List Token) → Tokens text a → Tokens text b → a ≡ b }
{}

/// A text that is refused for another cause than want of memory has no tokens.
pub fn no_tokens_where_refused()
    ensures { (text : Text) (why : LexErr) → RefusalDue text why → why ≢ no_memory
        → (tokens : List Token) → Tokens text tokens → ⊥ }
{}

/// The spans of the tokens of a text are not empty, rise, and lie in the text.
pub fn spans_rise()
    ensures { (text : Text) (tokens : List Token) → Tokens text tokens → SpansRise 0 tokens (length text) }
{}
