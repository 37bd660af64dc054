//! The parts of all events.

ghost use Rattle.std.specs.Prelude.{◌≡◌, ◌+◌, ◌≤◌, codes, length, map, IfOk, OnOk};
ghost use Rattle.std.specs.List.{AllByRecursion};
ghost use Rattle.cif_net.specs.View.{choice_tree, net_tree};
ghost use Rattle.plc_model.specs.Names.{name_for};
ghost use Rattle.plc_model.specs.declared.letter.Letter.TheVariants as letter;
ghost use Rattle.plc_frame.specs.Given.{own_variables, part_tree};
ghost use Rattle.plc_event_model.specs.Own.{range_face};
ghost use Rattle.plc_event_model.specs.ProgramParts.{net_parts, part_for};
ghost use Rattle.plc_event.specs.After.{AreSame};
ghost use Rattle.plc_event.specs.Names.{AreNames};
ghost use Rattle.plc_gen.specs.Named.{IsNamedChoice};
ghost use Rattle.plc_gen.specs.Order.{Ascending, leading};
ghost use Rattle.plc_gen.specs.Outlines.{NamesNew, StandOnce, declared_from, done_if, outlined_faces, outlined_ifs, outlined_new, outlined_sent};

use crate::faces::{Outline, OwnVariables, outline_of};
use cif_base::{Boxed, Items, Memory};
use cif_net::{Choice, Net};
use plc_event::{NewTexts, Scratch, event_marks, statements_of};
use plc_expr::Names;
use plc_frame::Part;
use plc_model::Letter;
use plc_names::name_of;
use st_ast::StVar;
use std::alloc::Global;

/// What is used again for each event: the names of new values, and what is used again for each choice.
#[derive(Drop)]
pub struct Tables {
    pub new: NewTexts,
    pub scratch: Scratch,
}

impl Tables {
    /// Tables for a net.
    fn new(alloc: Global, net: &Net) -> Result<Tables, Memory>
        ensures { IfOk result (λ x. AreNames (net_tree net.now) x.scratch.after) }
    {
        let new = NewTexts::new(alloc, net)?;
        let scratch = Scratch::new(alloc, net)?;
        Ok(Tables { new, scratch })
    }
}

/// The declarations of an event's own variables, and the number of the first one of an expression.
#[derive(Drop)]
struct EventOwn {
    variables: Items<StVar>,
    ifs: u32,
}

/// The own variables of an event with this outline, numbered from `first` on. `new` keeps the names of its new values, and `names`
/// that of what is sent.
fn declared(
    alloc: Global,
    net: &Net,
    outline: &Outline,
    first: u32,
    new: &mut NewTexts,
    names: &mut Names,
) -> Result<EventOwn, Memory>
    requires once { StandOnce outline.now.vars }
    requires are_names { AreNames (net_tree net.now) names.now }
    ensures variables { IfOk result (λ own. own.variables ≡ declared_from first (outlined_faces (net_tree net.now) outline.now)) }
    ensures ifs { IfOk result (λ own. own.ifs ≡ outlined_ifs first outline.now) }
    ensures names { OnOk result (NamesNew (net_tree net.now) (outlined_new first outline.now) outline.now.vars new.new) }
    ensures still_names { OnOk result (AreNames (net_tree net.now) names.new) }
    ensures received { OnOk result (names.new.received ≡ name_for letter.T (outlined_sent first outline.now) (codes "sent")) }
    ensures in_range { OnOk result (new.new.in_range ≡ name_for letter.T (first + length (done_if outline.now.has_mark)) range_face.path) }
{
    let mut own = OwnVariables {
        variables: Items::new(alloc),
        next: first,
    };
    own.add_done(alloc, outline.has_mark)?;
    new.in_range = name_of(alloc, Letter::T, own.next, b"in_range")?;
    own.add_range(alloc, outline.tests_range)?;
    own.add_new(alloc, net, outline.vars.as_slice(), new)?;
    names.received = name_of(alloc, Letter::T, own.next, b"sent")?;
    own.add_sent(alloc, outline.sent)?;
    let ifs = own.next;
    own.add_ifs(alloc, outline.types.as_slice())?;
    let OwnVariables { variables, next: _ } = own;
    Ok(EventOwn { variables, ifs })
}

/// The part of an event with these choices. Its own variables are numbered from `first` on, and the expressions of the choices name
/// what is in the net. The time is linear in the choices and in what is written.
fn event_part_of(
    alloc: Global,
    net: &Net,
    names: &mut Names,
    choices: &[Choice],
    first: u32,
    tables: &mut Tables,
) -> Result<Boxed<Part>, Memory>
    requires names { AreNames (net_tree net.now) names.now }
    requires same { AreSame tables.now.scratch.after names.now }
    requires named { AllByRecursion (IsNamedChoice (net_tree net.now)) (map choice_tree choices.now) }
    ensures still_names { OnOk result (AreNames (net_tree net.now) names.new) }
    ensures still_same { OnOk result (AreSame tables.exit.now.scratch.after names.new) }
    ensures part { IfOk result (λ part. part_tree part ≡ part_for (net_tree net.now) first (map choice_tree choices.now)) }
{
    let outline = outline_of(alloc, net, choices, &mut tables.scratch.changes)?;
    let EventOwn { variables, ifs } = declared(
        alloc,
        net,
        &outline,
        first,
        &mut tables.new,
        names,
    )?;
    let marks = event_marks(alloc, first, outline.has_mark)?;
    let body = statements_of(
        alloc,
        net,
        names,
        &tables.new,
        choices,
        &marks,
        ifs,
        &mut tables.scratch,
    )?;
    let own = variables;
    Boxed::new(alloc, Part { own, body })
}

/// The parts of events, and the number of the next own variable.
#[derive(Drop)]
pub struct Parts {
    pub parts: Items<Part>,
    pub next: u32,
}

/// The number of choices at the front that are those of the event.
fn count_of(choices: &[Choice], event: usize) -> usize
    ensures count { result ≡ leading event (map choice_tree choices.now) }
    ensures within { result ≤ length choices.now }
{
    for (at, choice) in choices.iter().enumerate() {
        if choice.event as usize != event {
            return at;
        }
    }
    choices.len()
}

/// `first + count`, or `Memory` beyond 32 bits.
pub(crate) fn number_after(first: u32, count: usize) -> Result<u32, Memory>
    ensures { IfOk result (λ k. k ≡ first + count) }
{
    let Ok(more) = u32::try_from(count) else {
        return Err(Memory);
    };
    match first.checked_add(more) {
        Some(next) => Ok(next),
        None => Err(Memory),
    }
}

/// The parts of all events, from choices in the order of the events. The own variables of an event are numbered after those of
/// the events before it, the first of all with 2.
#[tactic(auto, using(crate::proofs::Namings::same_names))]
pub(crate) fn all_parts(
    alloc: Global,
    net: &Net,
    names: &mut Names,
    choices: &[Choice],
) -> Result<Parts, Memory>
    requires names { AreNames (net_tree net.now) names.now }
    requires named { AllByRecursion (IsNamedChoice (net_tree net.now)) (map choice_tree choices.now) }
    requires ascending { Ascending 0 (map choice_tree choices.now) }
    ensures parts { IfOk result (λ all. map part_tree all.parts ≡ net_parts (net_tree net.now) (map choice_tree choices.now)) }
    ensures next { IfOk result (λ all. all.next ≡ 2 + length (own_variables (map part_tree all.parts))) }
    ensures still_names { OnOk result (AreNames (net_tree net.now) names.new) }
{
    let mut tables = Tables::new(alloc, net)?;
    let mut rest = choices;
    let mut next = 2;
    let mut parts = Items::new(alloc);
    for event in 0..net.events.len() {
        let (here, later) = rest.split_at(count_of(rest, event));
        let part = event_part_of(alloc, net, names, here, next, &mut tables)?;
        next = number_after(next, part.get().own.len())?;
        parts.push(part.into_inner())?;
        rest = later;
    }
    Ok(Parts { parts, next })
}
