//! Cases of nets: sources, their nets with the choices of all events, and their programs.

ghost use Rattle.std.specs.Prelude.{◌≡◌, ◌≤◌, true, length, IfOk};
ghost use Rattle.cif_ast.specs.Countable.{IsCountable};
ghost use Rattle.cif_ast.specs.SmallNumbers.{HasSmallNumbers};
ghost use Rattle.cif_net.specs.View.{net_tree};
ghost use Rattle.cif_net_model.specs.Nesting.{is_shallow};

use crate::sources::{put_no_tree, spec_of};
use case_text::{Fault, Fields, Put, put_lines, put_text};
use cif_alg::inline;
use cif_alg_measure::{check_intervals, depth_of};
use cif_ast::Spec;
use cif_base::Text;
use cif_front::{LoadErr, load};
use cif_inst::instantiate;
use cif_net::{Auto, Choice, Class, Event, Guarded, Move, Net, NetEdge, State};
use cif_resolve::resolve;
use cif_types::check_kinds;
use plc_back::generate_text;
use plc_frame::Bounds;
use std::alloc::Global;

/// The most bytes of a source that is loaded.
const MOST_BYTES: usize = 4_194_304;

/// The most rounds of a class in a scan.
const MOST_ROUNDS: u32 = 10_000;

/// `load TEXT`: the net of a source, or why there is none.
pub fn load_case(fields: &Fields<'_>, page: &mut String) -> Result<(), Fault> {
    let text = fields.text()?;
    match loaded(fields.alloc, text.as_slice())? {
        Err(refusal) => Ok(writeln!(page, "  {refusal:?}")?),
        Ok(guarded) => put_guarded(fields.alloc, page, &guarded),
    }
}

#[tactic(auto, using(crate::proofs::NetLaws::loads_shallow))]
pub(crate) fn loaded(alloc: Global, text: &[u8]) -> Result<Result<Guarded, LoadErr>, Fault>
    ensures shallow { IfOk result (λ answer. IfOk answer (λ g. is_shallow (net_tree g.plain.net) ≡ true)) }
{
    if text.len() > MOST_BYTES {
        return Err(Fault::Form("a source has at most 4194304 bytes"));
    }
    Ok(load(alloc, text))
}

fn put_guarded(alloc: Global, page: &mut String, guarded: &Guarded) -> Result<(), Fault> {
    let net = &guarded.plain.net;
    put_events(page, net.events.as_slice())?;
    put_autos(page, net.autos.as_slice())?;
    put_choices(page, guarded.choices.as_slice())?;
    let state = State::initial(alloc, net)?;
    Ok(put_numbers(page, "  starts in", state.locs.as_slice())?)
}

/// The net of a source in which algebraic variables stand as names, or why there is none.
fn net_of(alloc: Global, spec: &Spec) -> Result<Net, LoadErr>
    requires countable { IsCountable spec.now }
    requires small { HasSmallNumbers spec.now }
{
    let scopes = resolve(alloc, spec)?;
    let kinds = check_kinds(alloc, spec, &scopes)?;
    Ok(instantiate(alloc, spec, &scopes, &kinds)?)
}

/// `inline TEXT`: the guards of the net of a source where algebraic variables are replaced by their definitions, or why it is
/// refused. `widths TEXT`: whether the expressions of the net divide by no 0 and stay in 64 bits, and how deep they are.
pub fn net_case(call: &str, fields: &Fields<'_>, page: &mut String) -> Result<(), Fault> {
    let text = fields.text()?;
    match spec_of(fields.alloc, text.as_slice()) {
        Err(why) => put_no_tree(page, why),
        Ok(spec) => match net_of(fields.alloc, &spec) {
            Err(refusal) => Ok(writeln!(page, "  {refusal:?}")?),
            Ok(net) => put_net(fields.alloc, page, call, net),
        },
    }
}

fn put_net(alloc: Global, page: &mut String, call: &str, net: Net) -> Result<(), Fault> {
    match call {
        "inline" => Ok(put_inlined(alloc, page, net)?),
        _ => put_widths(alloc, page, &net),
    }
}

fn put_inlined(alloc: Global, page: &mut String, net: Net) -> Put {
    match inline(alloc, net) {
        Err(error) => writeln!(page, "  {error:?}"),
        Ok(plain) => put_guards(page, plain.net.autos.as_slice()),
    }
}

fn put_guards(page: &mut String, autos: &[Auto]) -> Put {
    page.push_str("  Ok\n")?;
    for auto in autos {
        put_edge_guards(page, auto.edges.as_slice())?;
    }
    Ok(())
}

fn put_edge_guards(page: &mut String, edges: &[NetEdge]) -> Put {
    for edge in edges {
        let guard = &edge.guard;
        writeln!(page, "  {guard:?}")?;
    }
    Ok(())
}

fn put_widths(alloc: Global, page: &mut String, net: &Net) -> Result<(), Fault> {
    if !net.algs.is_empty() {
        return Err(Fault::Form("a source without algebraic variables is wanted"));
    }
    let widths = check_intervals(alloc, net);
    let depth = depth_of(net);
    Ok(writeln!(page, "  {widths:?}, depth {depth}")?)
}

fn put_events(page: &mut String, events: &[Event]) -> Put {
    for event in events {
        page.push_str("  event ")?;
        put_text(page, event.path.as_slice())?;
        page.push_str(match event.class {
            Class::Plain => "\n",
            Class::Con => " controllable\n",
            Class::Unc => " uncontrollable\n",
        })?;
    }
    Ok(())
}

fn put_autos(page: &mut String, autos: &[Auto]) -> Put {
    for auto in autos {
        page.push_str("  automaton ")?;
        put_text(page, auto.path.as_slice())?;
        put_names(page, auto.locs.as_slice())?;
        put_numbers(page, "    alphabet", auto.alphabet.as_slice())?;
        put_numbers(page, "    monitors", auto.monitors.as_slice())?;
        put_edges(page, auto.edges.as_slice())?;
    }
    Ok(())
}

/// The name of a location, and `-` for one without a name.
fn put_name(page: &mut String, name: &[u8]) -> Put {
    if name.is_empty() {
        page.push('-')
    } else {
        put_text(page, name)
    }
}

fn put_names(page: &mut String, names: &[Text]) -> Put {
    page.push_str(":")?;
    for name in names {
        page.push(' ')?;
        put_name(page, name.as_slice())?;
    }
    page.push('\n')
}

fn put_numbers(page: &mut String, head: &str, numbers: &[u32]) -> Put {
    page.push_str(head)?;
    for number in numbers {
        write!(page, " {number}")?;
    }
    page.push('\n')
}

fn put_edges(page: &mut String, edges: &[NetEdge]) -> Put {
    page.push_str("    edges")?;
    for edge in edges {
        let (event, from, to) = (edge.event, edge.from, edge.to);
        write!(page, " {event}:{from}>{to}")?;
    }
    page.push('\n')
}

fn put_moves(page: &mut String, moves: &[Move]) -> Put {
    for one in moves {
        let auto = one.auto;
        match one.edge {
            Some(edge) => write!(page, " {auto}/{edge}")?,
            None => write!(page, " {auto}/stays")?,
        }
    }
    page.push('\n')
}

fn put_choices(page: &mut String, choices: &[Choice]) -> Put {
    for choice in choices {
        let event = choice.event;
        write!(page, "  choice {event}:")?;
        put_moves(page, choice.moves.as_slice())?;
    }
    Ok(())
}

/// The bounds of the rounds that the field after the text has.
fn bounds_of(fields: &Fields<'_>) -> Result<Bounds, Fault>
    ensures unc { IfOk result (λ b. b.unc ≤ 10000) }
    ensures con { IfOk result (λ b. b.con ≤ 10000) }
{
    let numbers = fields.numbers(fields.written(1))?;
    let [unc, con] = numbers.as_slice() else {
        return Err(Fault::Form("two bounds are wanted"));
    };
    let (unc, con) = (*unc, *con);
    if unc > MOST_ROUNDS || con > MOST_ROUNDS {
        return Err(Fault::Form("a bound is at most 10000"));
    }
    Ok(Bounds { unc, con })
}

/// `emit TEXT | UNC CON`: the program of a source, with these most rounds.
pub fn emit_case(fields: &Fields<'_>, page: &mut String) -> Result<(), Fault> {
    let bounds = bounds_of(fields)?;
    let text = fields.text()?;
    put_program(fields.alloc, page, text.as_slice(), bounds)
}

/// The program of a source, or why there is none.
fn put_program(alloc: Global, page: &mut String, text: &[u8], bounds: Bounds) -> Result<(), Fault>
    requires unc { bounds.unc ≤ 10000 }
    requires con { bounds.con ≤ 10000 }
{
    match loaded(alloc, text)? {
        Err(refusal) => Ok(writeln!(page, "  {refusal:?}")?),
        Ok(guarded) => match generate_text(alloc, &guarded, bounds) {
            Ok(program) => Ok(put_lines(page, "program", program.as_slice())?),
            Err(error) => Ok(writeln!(page, "  {error:?}")?),
        },
    }
}
