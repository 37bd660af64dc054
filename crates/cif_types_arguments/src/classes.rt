//! The classes of events and of event parameters.

ghost use Rattle.std.specs.Prelude.{◌≡◌, option_map, slice_get};
ghost use Rattle.cif_source.specs.Source.{param_tree};
ghost use Rattle.cif_types_arguments.specs.Classes as classes;

use cif_ast::{Class, Param};
use cif_scope::{Found, ParamSort, Scopes, Sort, What, Written};

/// The parameters of a body. Where there is no such body, there are none.
pub fn params_at<'a>(all: &[Written<'a>], body: u32) -> &'a [Param]
    ensures { result.now ≡ classes.params_at all.now body }
{
    match all.get(body as usize) {
        Some(one) => one.params,
        None => &[],
    }
}

/// The class of an event parameter, by its place.
fn param_class(params: &[Param], slot: u32) -> Option<Class>
    ensures { result ≡ classes.param_class (option_map param_tree (slice_get params.now slot)) }
{
    match params.get(slot as usize) {
        Some(Param::Event { class, .. }) => Some(*class),
        Some(Param::Alg { .. } | Param::Location { .. }) | None => None,
    }
}

/// The class of the event or the event parameter in a slot of a body.
fn class_at(scopes: &Scopes, all: &[Written<'_>], body: u32, slot: u32) -> Option<Class>
    ensures { result ≡ classes.class_at scopes.now all.now body slot }
{
    match scopes.what(body, slot) {
        Some(What::Declared(Sort::Event(class))) => Some(class),
        Some(What::Parameter(ParamSort::Event)) => param_class(params_at(all, body), slot),
        _ => None,
    }
}

/// The class of the event or the event parameter that was found. Where none was, there is none.
pub fn class_found(scopes: &Scopes, all: &[Written<'_>], found: &Option<Found>) -> Option<Class>
    ensures { result ≡ classes.class_found scopes.now all.now found.now }
{
    match found {
        Some(found) => class_at(scopes, all, found.body, found.slot),
        None => None,
    }
}

/// Whether there is the class that a parameter asks for. `event` asks for none.
pub fn has_class(asks: Class, class: Option<Class>) -> bool
    ensures { result ≡ classes.has_class asks class }
{
    match asks {
        Class::Plain => true,
        Class::Con => matches!(class, Some(Class::Con)),
        Class::Unc => matches!(class, Some(Class::Unc)),
    }
}
