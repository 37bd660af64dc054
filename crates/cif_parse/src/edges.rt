//! Edges.

ghost use Rattle.std.specs.Prelude.{◌≡◌, Option};
ghost use Rattle.cif_parse_expr.specs.Gives.{Gives};
ghost use Rattle.cif_parse.specs.Reading as reading;
ghost use Rattle.cif_parse.specs.Trees as tree;

use crate::expressions::perhaps;
use crate::updating::updates;
use cif_ast::{Edge, EventUse, Expr, Ident, Role, Update};
use cif_base::{Boxed, Items};
use cif_lex::{Mark, Token, TokenKind, Word};
use cif_parse_decl::given;
use cif_parse_expr::{
    ExprPart, Part, Read, expr_list, ident, inside, name, optional, separated_boxes, sign, starts,
    word,
};
use std::alloc::Global;

/// `!`, and a value where one is sent.
#[tactic(auto, unfolding(crate::specs::Reading::send_at))]
fn send<'a>(alloc: Global, text: &[u8], tokens: &'a [Token]) -> Read<'a, Boxed<Role>>
    ensures { Gives (λ x. (x.0, x.1.now)) result (reading.send_at text.now tokens.now) }
{
    let (_sends, rest) = sign(tokens, Mark::Exclamation)?;
    let (value, rest) = perhaps(&ExprPart, alloc, text, rest)?;
    let found = Boxed::new(alloc, Role::Send(inside(value)))?;
    Ok((found, rest))
}

/// What an automaton does with an event that it doesn't synchronise on.
struct RolePart;

impl Part for RolePart {
    type Tree = Boxed<Role>;

    ghost use Rattle.cif_parse.specs.Reading as reading;

    ghost tree_at = { λ s. reading.role_at };

    #[tactic(auto, unfolding(crate::specs::Reading::role_at))]
    fn read<'a>(&self, alloc: Global, text: &[u8], tokens: &'a [Token]) -> Read<'a, Boxed<Role>> {
        if starts(tokens, &[TokenKind::Sign(Mark::Exclamation)]) {
            send(alloc, text, tokens)
        } else {
            let (_receives, rest) = sign(tokens, Mark::Question)?;
            Ok((Boxed::new(alloc, Role::Recv)?, rest))
        }
    }
}

fn role_or(role: Option<Boxed<Role>>) -> Role
    ensures { result ≡ tree.role_or role }
{
    match role {
        Some(role) => role.into_inner(),
        None => Role::Sync,
    }
}

/// A use of an event.
struct EventUsePart;

impl Part for EventUsePart {
    type Tree = Boxed<EventUse>;

    ghost use Rattle.cif_parse.specs.Reading as reading;

    ghost tree_at = { λ s. reading.event_use_at };

    #[tactic(auto, unfolding(crate::specs::Reading::event_use_at))]
    fn read<'a>(
        &self,
        alloc: Global,
        text: &[u8],
        tokens: &'a [Token],
    ) -> Read<'a, Boxed<EventUse>> {
        let (name, rest) = name(alloc, text, tokens)?;
        let (role, rest) = optional(
            &RolePart,
            alloc,
            text,
            &[
                TokenKind::Sign(Mark::Exclamation),
                TokenKind::Sign(Mark::Question),
            ],
            rest,
        )?;
        let role = role_or(role);
        let found = Boxed::new(alloc, EventUse { name, role })?;
        Ok((found, rest))
    }
}

/// `when` and guards.
struct GuardsPart;

impl Part for GuardsPart {
    type Tree = Items<Expr>;

    ghost use Rattle.cif_parse.specs.Reading as reading;

    ghost tree_at = { λ s. reading.guards_at };

    #[tactic(auto, unfolding(crate::specs::Reading::guards_at))]
    fn read<'a>(&self, alloc: Global, text: &[u8], tokens: &'a [Token]) -> Read<'a, Items<Expr>> {
        let (_when, rest) = word(tokens, Word::When)?;
        expr_list(alloc, text, rest)
    }
}

/// `do` and updates.
struct ActionsPart;

impl Part for ActionsPart {
    type Tree = Items<Update>;

    ghost use Rattle.cif_parse.specs.Reading as reading;

    ghost tree_at = { λ s. reading.actions_at };

    #[tactic(auto, unfolding(crate::specs::Reading::actions_at))]
    fn read<'a>(&self, alloc: Global, text: &[u8], tokens: &'a [Token]) -> Read<'a, Items<Update>> {
        let (_do, rest) = word(tokens, Word::Do)?;
        updates(alloc, text, rest)
    }
}

/// `goto` and the name of a location.
struct TargetPart;

impl Part for TargetPart {
    type Tree = Ident;

    ghost use Rattle.cif_parse.specs.Reading as reading;

    ghost tree_at = { λ s. reading.target_at };

    #[tactic(auto, unfolding(crate::specs::Reading::target_at))]
    fn read<'a>(&self, alloc: Global, text: &[u8], tokens: &'a [Token]) -> Read<'a, Ident> {
        let (_goto, rest) = word(tokens, Word::Goto)?;
        ident(alloc, text, rest)
    }
}

/// The updates and the target of an edge, each where it comes, and the end.
#[tactic(auto, unfolding(crate::specs::Reading::edge_end_at))]
fn edge_end<'a>(
    alloc: Global,
    text: &[u8],
    tokens: &'a [Token],
) -> Read<'a, (Items<Update>, Option<Ident>)>
    ensures { Gives (λ x. (x.0, x.1.now)) result (reading.edge_end_at text.now tokens.now) }
{
    let (updates, rest) = optional(
        &ActionsPart,
        alloc,
        text,
        &[TokenKind::Reserved(Word::Do)],
        tokens,
    )?;
    let (target, rest) = optional(
        &TargetPart,
        alloc,
        text,
        &[TokenKind::Reserved(Word::Goto)],
        rest,
    )?;
    let (_end, rest) = sign(rest, Mark::Semicolon)?;
    Ok(((given(alloc, updates), target), rest))
}

/// An edge.
#[tactic(auto, unfolding(crate::specs::Reading::edge_at))]
pub fn edge<'a>(alloc: Global, text: &[u8], tokens: &'a [Token]) -> Read<'a, Edge>
    ensures { Gives (λ x. (x.0, x.1.now)) result (reading.edge_at text.now tokens.now) }
{
    let (_edge, rest) = word(tokens, Word::Edge)?;
    let (uses, rest) = separated_boxes(&EventUsePart, alloc, text, Mark::Comma, rest)?;
    let (guards, rest) = optional(
        &GuardsPart,
        alloc,
        text,
        &[TokenKind::Reserved(Word::When)],
        rest,
    )?;
    let ((updates, target), rest) = edge_end(alloc, text, rest)?;
    let guards = given(alloc, guards);
    Ok((
        Edge {
            uses,
            guards,
            updates,
            target,
        },
        rest,
    ))
}
