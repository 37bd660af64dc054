//! Automata in which an event has two roles: it is in the alphabet, sent or received (CIF 3 language reference, "Channels").

ghost use Rattle.std.specs.Prelude.{◌≡◌, None, IfOk, OnOk};
ghost use Rattle.std.specs.Result.{IfErr};
ghost use Rattle.cif_inst_automata.specs.Roles as roles;

use crate::alphabets::Alphabet;
use crate::body_names::name_places;
use crate::error::AutomataErr;
use crate::marks::{give_mark, has_mark};
use crate::used::events_as;
use cif_base::{Items, Memory};
use cif_inst_names::Looking;
use cif_inst_paths::body_number;
use cif_net::NetRole;
use cif_scope::number;
use std::alloc::Global;

/// Whether an event has two roles in an automaton with this alphabet, whose mark no event has yet.
fn is_mixed(
    alloc: Global,
    marks: &mut Items<u32>,
    mark: u32,
    alphabet: &Alphabet,
) -> Result<bool, Memory>
    ensures found { IfOk result (λ b. b ≡ roles.is_mixed_by mark alphabet.now marks.old) }
    ensures after { OnOk result (marks.new ≡ roles.marked_by mark alphabet.now marks.old) }
{
    let received = events_as(alloc, NetRole::Recv, alphabet.used.as_slice())?;
    let sent = events_as(alloc, NetRole::Send, alphabet.used.as_slice())?;
    give_mark(marks, mark, alphabet.events.as_slice());
    let is_received = has_mark(marks, mark, received.as_slice());
    give_mark(marks, mark, received.as_slice());
    Ok(is_received || has_mark(marks, mark, sent.as_slice()))
}

/// The component of the first automaton in which an event has two roles.
fn first_mixed(alloc: Global, alphabets: &[Alphabet], events: usize) -> Result<Option<u32>, Memory>
    requires below { roles.AreAllBelow events alphabets.now }
    ensures { IfOk result (λ o. o ≡ roles.first_mixed alphabets.now) }
{
    let mut marks = Items::filled(alloc, 0, events)?;
    for (place, alphabet) in alphabets.iter().enumerate() {
        if is_mixed(alloc, &mut marks, number(place + 1)?, alphabet)? {
            return Ok(Some(alphabet.component));
        }
    }
    Ok(None)
}

/// Checks that no event has two roles in an automaton. The error is the first automaton with one, by its name in the body as written.
/// `events` is the number of the events of the source. The time is linear in the alphabets and the edges.
pub(crate) fn check_roles(
    alloc: Global,
    looking: &Looking<'_, '_>,
    alphabets: &[Alphabet],
    events: usize,
) -> Result<(), AutomataErr>
    requires below { roles.AreAllBelow events alphabets.now }
    ensures within { IfOk result (λ done. roles.first_mixed alphabets.now ≡ None) }
    ensures told { IfErr result (λ e. roles.tells_mixed e (roles.mixed_place looking.now (roles.first_mixed alphabets.now))) }
{
    let Some(component) = first_mixed(alloc, alphabets, events)? else {
        return Ok(());
    };
    let places = name_places(alloc, looking.spec)?;
    match places.get(body_number(looking.components, component) as usize) {
        Some(at) => Err(AutomataErr::RoleMixed { at: *at }),
        None => Err(AutomataErr::Memory),
    }
}
