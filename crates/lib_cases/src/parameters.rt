//! Cases of the rules on kinds, and of what the parameters of components stand for.

ghost use Rattle.cif_ast.specs.Countable.{IsCountable};
ghost use Rattle.cif_inst_components.specs.Numbers.{AreComponentsOf};
ghost use Rattle.cif_source.specs.BodyRules.{MismatchDue};
ghost use Rattle.cif_scope.specs.Scopes.{AreScopesOf};
ghost use Rattle.cif_source.specs.Source.{source_of};
ghost use Rattle.std.specs.Prelude.{ℕ};

use case_text::{Fault, Put};
use cif_ast::Spec;
use cif_inst_components::{Components, number_components};
use cif_inst_parameters::{Given, parameters};
use cif_scope::Scopes;
use cif_types::check_kinds;
use std::alloc::Global;

fn put_one(page: &mut String, given: &Given<'_>) -> Put {
    match given {
        Given::Named(place) => write!(page, " named {}:{}", place.component, place.slot),
        Given::Value { giver, value, at } => {
            write!(page, " value of {giver} at {}", value.at)?;
            match at {
                Some(at) => write!(page, " as {at}"),
                None => Ok(()),
            }
        }
    }
}

fn put_given(page: &mut String, component: usize, given: &[Given<'_>]) -> Put {
    if given.is_empty() {
        return Ok(());
    }
    write!(page, "  {component}:")?;
    for (slot, one) in given.iter().enumerate() {
        if slot > 0 {
            page.push(',')?;
        }
        put_one(page, one)?;
    }
    page.push('\n')
}

/// What the parameters of each component with some stand for.
fn put_parameters(
    alloc: Global,
    page: &mut String,
    spec: &Spec,
    scopes: &Scopes,
    components: &Components,
) -> Result<(), Fault>
    requires scopes { AreScopesOf (source_of spec.now) scopes.now }
    requires components { AreComponentsOf (source_of spec.now) components.now }
    requires matched { (at : ℕ) → MismatchDue (source_of spec.now) at → ⊥ }
{
    let all = parameters(alloc, spec, scopes, components)?;
    for (component, given) in all.iter().enumerate() {
        put_given(page, component, given.as_slice())?;
    }
    Ok(())
}

/// `kinds TEXT`: whether a source of any form keeps the rules on kinds, or one that it breaks. `parameters TEXT`: what the parameters of
/// each component with some stand for.
pub fn put_fitting(
    alloc: Global,
    page: &mut String,
    call: &str,
    spec: &Spec,
    scopes: &Scopes,
) -> Result<(), Fault>
    requires countable { IsCountable spec.now }
    requires scopes { AreScopesOf (source_of spec.now) scopes.now }
{
    match check_kinds(alloc, spec, scopes) {
        Err(error) => Ok(writeln!(page, "  {error:?}")?),
        Ok(_) if call == "kinds" => Ok(page.push_str("  Ok\n")?),
        Ok(_) => match number_components(alloc, spec, scopes) {
            Err(error) => Ok(writeln!(page, "  {error:?}")?),
            Ok(components) => put_parameters(alloc, page, spec, scopes, &components),
        },
    }
}
