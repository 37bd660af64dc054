//! A text as its tokens.

ghost use Rattle.std.specs.Prelude.{◌≡◌, ◌≤◌, List, length, IfOk, IfErr, MatchResult};
ghost use Rattle.cif_lex.specs.Cutting.{refusal_of};
ghost use Rattle.cif_lex.specs.Tokens.{Tokens, RefusalDue};
ghost use Rattle.cif_lex.specs.declared.error.LexErr.TheVariants.{Memory as no_memory};
ghost use Rattle.cif_lex.specs.declared.token.Token.{Token};

use crate::error::LexErr;
use crate::found::Fault;
use crate::pieces::front;
use crate::token::Token;
use cif_base::Span;
use std::alloc::Global;

/// The error for what is found at a place.
fn refusal(fault: Fault, at: u32) -> LexErr
    ensures { result ≡ refusal_of fault at }
{
    match fault {
        Fault::BadByte => LexErr::BadByte { at },
        Fault::NumberTooBig => LexErr::NumberTooBig { at },
        Fault::OpenComment => LexErr::OpenComment { at },
    }
}

/// The tokens of a text of at most 4 MiB, found in one pass (CIF 3 language reference, "Lexical syntax"). No memory is
/// taken but that of the tokens.
#[tactic(auto, using(crate::proofs::StepLaws::left_shorter, crate::proofs::StepLaws::taken_token, crate::proofs::StepLaws::taken_skip, crate::proofs::StepLaws::taken_none))]
pub fn lex(alloc: Global, text: &[u8]) -> Result<Vec<Token>, LexErr>
    requires { length text.now ≤ 4194304 }
    ensures tokens { IfOk result (λ tokens. Tokens text.now tokens.items) }
    ensures refused { IfErr result (RefusalDue text.now) }
    // A text that has tokens is refused for want of memory alone.
    ensures complete { (all : List Token) → Tokens text.now all
        → MatchResult result (λ tokens. tokens.items ≡ all) (λ e. e ≡ no_memory) }
{
    let mut tokens = Vec::new(alloc);
    let mut rest = text;
    while !rest.is_empty() {
        let from = (text.len() - rest.len()) as u32;
        let (kind, left) = match front(rest) {
            Ok(found) => found,
            Err(fault) => return Err(refusal(fault, from)),
        };
        if let Some(kind) = kind {
            let to = (text.len() - left.len()) as u32;
            tokens.push(Token {
                kind,
                span: Span { from, to },
            })?;
        }
        rest = left;
    }
    Ok(tokens)
}
