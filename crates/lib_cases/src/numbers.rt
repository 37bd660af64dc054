//! Cases of the components of a source by numbers, and of the numbers of what they declare.

ghost use Rattle.std.specs.Prelude.{◌<◌, length};
ghost use Rattle.cif_inst_components.specs.Numbers.{AreComponentsOf};
ghost use Rattle.cif_scope.specs.Looks.{names_at};
ghost use Rattle.cif_scope.specs.Scopes.{AreScopesOf};
ghost use Rattle.cif_source.specs.Source.{source_of};

use crate::components::put_components;
use case_text::{Fault, Put, put_text};
use cif_ast::Spec;
use cif_inst_components::{Component, Components, Place, number_components};
use cif_inst_numbers::{Counted, Numbers, number_objects};
use cif_scope::{Inside, Scopes, Written, written_bodies};
use std::alloc::Global;

/// The numbers of a source, and what they stand for.
#[derive(Clone, Copy)]
struct Net<'a> {
    scopes: &'a Scopes,
    components: &'a Components,
    numbers: &'a Numbers,
    written: &'a [Written<'a>],
}

fn word(among: Counted) -> &'static str {
    match among {
        Counted::Event => "event",
        Counted::Input => "input",
        Counted::Variable => "variable",
        Counted::Algebraic => "alg",
    }
}

fn put_slot(page: &mut String, net: &Net, body: u32, place: Place) -> Put
    requires body { body < length net.now.scopes.now.table.scopes }
    requires slot { place.slot < length (names_at net.now.scopes.now.table body) }
{
    let Some(numbered) = net.numbers.declared(net.scopes, net.components, place) else {
        return Ok(());
    };
    page.push_str(", ")?;
    put_text(page, net.scopes.name(body, place.slot).text.as_slice())?;
    write!(page, " {} {}", word(numbered.among), numbered.number)
}

fn put_slots(page: &mut String, net: &Net, component: u32, body: u32) -> Put {
    if body >= net.scopes.bodies() {
        return Ok(());
    }
    for slot in 0..net.scopes.slots(body) {
        put_slot(page, net, body, Place { component, slot })?;
    }
    Ok(())
}

fn put_sort(page: &mut String, net: &Net, component: u32, body: u32) -> Put {
    match net.written.get(body as usize) {
        Some(
            Written {
                inside: Inside::Automaton(_),
                ..
            },
        ) => write!(page, "  automaton {}", net.numbers.automaton(component)),
        _ => page.push_str("  group"),
    }
}

fn put_component(page: &mut String, net: &Net, component: u32, one: Component) -> Put {
    put_sort(page, net, component, one.body)?;
    put_slots(page, net, component, one.body)?;
    page.push('\n')
}

fn put_all(page: &mut String, net: &Net) -> Result<(), Fault> {
    for component in 0..cif_scope::number(net.components.len())? {
        if let Some(one) = net.components.get(component) {
            put_component(page, net, component, one)?;
        }
    }
    let total = net.numbers.total();
    write!(
        page,
        "  of all {} events, {} inputs",
        total.events, total.inputs
    )?;
    write!(page, ", {} variables, {} algs", total.variables, total.algs)?;
    Ok(writeln!(page, ", {} automata", total.automata)?)
}

/// The numbers of what the components of a source declare.
fn put_numbers(
    alloc: Global,
    page: &mut String,
    spec: &Spec,
    scopes: &Scopes,
    components: &Components,
) -> Result<(), Fault>
    requires scopes { AreScopesOf (source_of spec.now) scopes.now }
    requires components { AreComponentsOf (source_of spec.now) components.now }
{
    let numbers = number_objects(alloc, spec, scopes, components)?;
    let written = written_bodies(alloc, spec)?;
    let net = Net {
        scopes,
        components,
        numbers: &numbers,
        written: written.as_slice(),
    };
    put_all(page, &net)
}

/// `components TEXT`: the components of a source, each with its body, where it stands, and its outer component. `numbers TEXT`: what each
/// of them is, and the numbers of the events, inputs, variables and algebraic variables that it declares; and how many there are.
pub fn put_numbered(
    alloc: Global,
    page: &mut String,
    call: &str,
    spec: &Spec,
    scopes: &Scopes,
) -> Result<(), Fault>
    requires { AreScopesOf (source_of spec.now) scopes.now }
{
    match number_components(alloc, spec, scopes) {
        Err(error) => Ok(writeln!(page, "  {error:?}")?),
        Ok(components) if call == "components" => put_components(page, &components),
        Ok(components) => put_numbers(alloc, page, spec, scopes, &components),
    }
}
