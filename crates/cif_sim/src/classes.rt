//! The classes of events (CIF 3 language reference, "Events").

ghost use Rattle.std.specs.Prelude.{◌≡◌, ◌<◌, Some, length, option_map, slice_get};
ghost use Rattle.cif_system.specs.Step.{is_of, same_class};
ghost use Rattle.cif_net.specs.Parts.{class_of};
ghost use Rattle.cif_net.specs.declared.events.Event.{Event};
ghost use Rattle.cif_eval.specs.Choices.{system_of};

use cif_net::{Class, Event, Guarded};

/// Whether an event is of a class.
pub(crate) fn is_of(guarded: &Guarded, class: Class, event: u32) -> bool
    requires { event < length guarded.now.plain.net.events }
    ensures { result ≡ is_of (system_of guarded.now) (class_of class) event }
{
    is_same(class, class_at(guarded.plain.net.events.as_slice(), event))
}

/// The class of the event with this number.
fn class_at(events: &[Event], event: u32) -> Class
    requires { event < length events.now }
    ensures { option_map (λ (e : Event). e.class) (slice_get events.now event) ≡ Some result }
{
    events[event as usize].class
}

fn is_same(class: Class, other: Class) -> bool
    ensures { result ≡ same_class (class_of class) (class_of other) }
{
    match (class, other) {
        (Class::Plain, Class::Plain) => true,
        (Class::Con, Class::Con) => true,
        (Class::Unc, Class::Unc) => true,
        _ => false,
    }
}
