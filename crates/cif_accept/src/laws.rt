//! Examples that show that the words of the clauses about a source are inhabited.

ghost use Rattle.std.specs.Prelude.{[], ◌∷◌, codes};
ghost use Rattle.cif_lex.specs.declared.token.TokenKind.{TokenKind};
ghost use Rattle.cif_lex.specs.declared.token.Word.{Word};
ghost use Rattle.cif_lex.specs.declared.token.Mark.{Mark};
ghost use Rattle.cif_lex.specs.Tokens.{Tokens};

/// A word that is reserved, one that isn't, and a sign, with a blank and a comment among them.
pub fn these_tokens_are_read()
    ensures { Tokens (codes "edge u; // back")
        (record { kind = TokenKind.Reserved Word.Edge; span = record { from = 0; to = 4 } }
        ∷ record { kind = TokenKind.Id; span = record { from = 5; to = 6 } }
        ∷ record { kind = TokenKind.Sign Mark.Semicolon; span = record { from = 6; to = 7 } } ∷ []) }
{}
