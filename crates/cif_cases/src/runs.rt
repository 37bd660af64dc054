//! Cases of simulations: a source's net in its initial state, changed by inputs that are set and events that fire.

ghost use Rattle.std.specs.Prelude.{◌≡◌, ◌<◌, IfOk, length};
ghost use Rattle.cif_net.specs.declared.guarded.Guarded.{Guarded};

use crate::nets::loaded;
use case_text::{Fault, Fields, first_word, number};
use cif_net::{Class, Guarded};
use cif_sim::Sim;
use cif_why::reasons;
use std::alloc::Global;

/// The number of an event.
fn event(guarded: &Guarded, word: &str) -> Result<u32, Fault>
    ensures { IfOk result (λ e. e < length guarded.now.plain.net.events) }
{
    let event = number(word)?;
    if event as usize >= guarded.plain.net.events.len() {
        return Err(Fault::Form("no such event"));
    }
    Ok(event)
}

/// The number of an input.
fn input(guarded: &Guarded, word: &str) -> Result<u32, Fault>
    ensures { IfOk result (λ i. i < length guarded.now.plain.net.inputs) }
{
    let input = number(word)?;
    if input as usize >= guarded.plain.net.inputs.len() {
        return Err(Fault::Form("no such input"));
    }
    Ok(input)
}

/// The class of the events that are tried; all where there is no word.
fn class(word: &str) -> Result<Option<Class>, Fault> {
    match word {
        "" => Ok(None),
        "plain" => Ok(Some(Class::Plain)),
        "con" => Ok(Some(Class::Con)),
        "unc" => Ok(Some(Class::Unc)),
        _ => Err(Fault::Form("no class")),
    }
}

/// `INPUT VALUE`
fn put_set(
    guarded: &Guarded,
    sim: &mut Sim<'_>,
    words: (&str, &str),
    page: &mut String,
) -> Result<(), Fault>
    requires { sim.old.guarded ≡ guarded.now }
    ensures { sim.new.guarded ≡ guarded.now }
{
    let input = input(guarded, words.0)?;
    let Ok(value) = words.1.parse::<i64>() else {
        return Err(Fault::Form("no whole number"));
    };
    let ended = sim.set(input, value);
    Ok(writeln!(page, "  {ended:?}")?)
}

/// `EVENT`
fn put_fire(
    guarded: &Guarded,
    sim: &mut Sim<'_>,
    word: &str,
    page: &mut String,
) -> Result<(), Fault>
    requires { sim.old.guarded ≡ guarded.now }
    ensures { sim.new.guarded ≡ guarded.now }
{
    let ended = match sim.fire(event(guarded, word)?) {
        Ok(_) => Ok(()),
        Err(why) => Err(why),
    };
    Ok(writeln!(page, "  {ended:?}")?)
}

/// The first event that has a step, of all or of a class.
fn put_first(sim: &mut Sim<'_>, word: &str, page: &mut String) -> Result<(), Fault>
    ensures { sim.new.guarded ≡ sim.old.guarded }
{
    let found = match class(word)? {
        Some(class) => sim.first_of(class),
        None => sim.first(),
    };
    Ok(writeln!(page, "  {found:?}")?)
}

/// `EVENT`: the reasons why it has no step.
fn put_why(
    alloc: Global,
    guarded: &Guarded,
    sim: &Sim<'_>,
    word: &str,
    page: &mut String,
) -> Result<(), Fault>
    requires { sim.now.guarded ≡ guarded.now }
{
    let event = event(guarded, word)?;
    let all = reasons(alloc, guarded, sim.state(), event)?;
    Ok(writeln!(page, "  {all:?}")?)
}

/// Makes a call and prints what it answers.
fn put_call(
    alloc: Global,
    guarded: &Guarded,
    sim: &mut Sim<'_>,
    field: &str,
    page: &mut String,
) -> Result<(), Fault>
    requires { sim.old.guarded ≡ guarded.now }
    ensures { sim.new.guarded ≡ guarded.now }
{
    let (call, rest) = first_word(field);
    match call {
        "set" => put_set(guarded, sim, first_word(rest), page),
        "fire" => put_fire(guarded, sim, rest, page),
        "first" => put_first(sim, rest, page),
        "why" => put_why(alloc, guarded, sim, rest, page),
        "state" => Ok(writeln!(page, "  {:?}", sim.state())?),
        _ => Err(Fault::Form("no `set`, `fire`, `first`, `why` or `state`")),
    }
}

fn put_calls(fields: &Fields<'_>, guarded: &Guarded, page: &mut String) -> Result<(), Fault> {
    let mut sim = Sim::new(fields.alloc, guarded)?;
    for field in fields.others() {
        put_call(fields.alloc, guarded, &mut sim, field, page)?;
    }
    Ok(())
}

/// `sim TEXT | set INPUT VALUE | fire EVENT | first CLASS | why EVENT | state ..`: what each call answers, over the net of a source.
pub fn sim_case(fields: &Fields<'_>, page: &mut String) -> Result<(), Fault> {
    let text = fields.text()?;
    match loaded(fields.alloc, text.as_slice())? {
        Err(refusal) => Ok(writeln!(page, "  {refusal:?}")?),
        Ok(guarded) => put_calls(fields, &guarded, page),
    }
}
