//! What the names of components stand for.

ghost use Rattle.std.specs.Prelude.{◌≡◌, ◌<◌, length, map};
ghost use Rattle.cif_source.specs.Components as source;
ghost use Rattle.cif_source.specs.Objects.{components_of};
ghost use Rattle.cif_scope.specs.Scopes.{IsEntry};
ghost use Rattle.cif_scope.specs.Tables.{IsBody, IsWhat};
ghost use Rattle.cif_inst_components.specs.Numbers.{IsNumber};
ghost use Rattle.cif_inst_model.specs.Flat.{event_number, variable_number};
ghost use Rattle.cif_inst_parameters.specs.Following.{given_at};
ghost use Rattle.cif_inst_parameters.specs.Given.{given_items};
ghost use Rattle.cif_inst_names.specs.Objects as objects;
ghost use Rattle.cif_inst_names.specs.Objects.{Means, StandsFor};
ghost use Rattle.cif_inst_names.specs.Looking as looks;

use crate::objects::{Meaning, Object, Value};
use cif_ast::{Name, Spec};
use cif_base::Items;
use cif_inst_components::{Components, Place};
use cif_inst_numbers::{Counted, Numbered, Numbers};
use cif_inst_parameters::Given;
use cif_scope::{Scopes, Sort, What};

/// What names are looked up in: the scopes of a source, its components, the numbers of what they declare, the value of each constant
/// by its body and its slot there, and what the parameters of each component stand for.
#[derive(Clone, Copy)]
pub struct Looking<'a, 'b> {
    pub spec: &'b Spec,
    pub scopes: &'b Scopes,
    pub components: &'b Components,
    pub numbers: &'b Numbers,
    pub values: &'b [Items<Value>],
    pub given: &'b [Vec<Given<'a>>],
}

/// The value in a slot of a body.
fn value_at(table: &[Items<Value>], body: u32, slot: u32) -> Value
    ensures { result ≡ objects.value_at table.now body slot }
{
    let none = Value::Number(0);
    let Some(values) = table.get(body as usize) else {
        return none;
    };
    match values.get(slot as usize) {
        Some(value) => *value,
        None => none,
    }
}

fn is_constant(sort: Sort) -> bool
    ensures { result ≡ objects.is_constant sort }
{
    matches!(sort, Sort::Constant)
}

/// What has a number in the net.
fn object_with(numbered: Option<Numbered>) -> Object
    ensures { result ≡ objects.numbered_object numbered }
{
    let Some(Numbered { among, number }) = numbered else {
        return Object::Nothing;
    };
    match among {
        Counted::Event => Object::Event(number),
        Counted::Input => Object::Input(number),
        Counted::Variable => Object::Var(number),
        Counted::Algebraic => Object::Alg(number),
    }
}

/// The number of an event.
fn event_of(meaning: &Meaning<'_>) -> u32
    ensures { result ≡ objects.meant_event meaning.now }
{
    match meaning {
        Meaning::Object(Object::Event(number)) => *number,
        _ => 0,
    }
}

/// The number of a variable.
fn variable_of(meaning: &Meaning<'_>) -> u32
    ensures { result ≡ objects.meant_variable meaning.now }
{
    match meaning {
        Meaning::Object(Object::Var(number)) => *number,
        _ => 0,
    }
}

impl<'a, 'b> Looking<'a, 'b> {
    /// What stands at a place of which it is known what it is, by the body of the component there.
    fn object_as(&self, body: u32, place: Place, what: What) -> Object
        ensures { (c : source.Component) (e : source.Entry) → looks.AreNamesOf self.now →
            IsNumber (looks.source_for self.now) place.component c → IsEntry c e place.slot →
            IsBody (looks.source_for self.now) body (source.as_written c) →
            IsWhat (looks.source_for self.now) (source.as_written c) e what → StandsFor c e result }
    {
        match what {
            What::Literal(number) => Object::Known(Value::Number(i64::from(number))),
            What::Location(number) => Object::Location {
                auto: self.numbers.automaton(place.component),
                place: number,
            },
            What::Declared(sort) => {
                if is_constant(sort) {
                    Object::Known(value_at(self.values, body, place.slot))
                } else {
                    object_with(self.numbers.declared(self.scopes, self.components, place))
                }
            }
            What::Component(_) | What::Definition(_, _) | What::Instance(_) | What::Parameter(_) =>
                Object::Nothing,
        }
    }

    /// What stands at a place.
    fn object(&self, place: Place) -> Object
        ensures { (c : source.Component) (e : source.Entry) → looks.AreNamesOf self.now →
            IsNumber (looks.source_for self.now) place.component c → IsEntry c e place.slot → StandsFor c e result }
    {
        let Some(component) = self.components.get(place.component) else {
            return Object::Nothing;
        };
        match self.scopes.what(component.body, place.slot) {
            Some(what) => self.object_as(component.body, place, what),
            None => Object::Nothing,
        }
    }

    /// What is given for the parameter of an instance that stands at a place; nothing where something else stands there.
    fn argument(&self, place: Place) -> Option<Given<'a>>
        ensures { result ≡ given_at (map given_items self.now.given.now) place }
    {
        let of_component = self.given.get(place.component as usize)?;
        let given = of_component.get(place.slot as usize)?;
        Some(*given)
    }

    /// What a name of a component stands for.
    pub fn meaning(&self, component: u32, name: &Name) -> Meaning<'a>
        requires names { looks.AreNamesOf self.now }
        requires component { component < length (components_of (looks.source_for self.now)) }
        ensures { Means (looks.source_for self.now) (looks.component_at self.now component) name.now result }
    {
        let Some(place) = self.components.find(self.scopes, component, name) else {
            return Meaning::Object(Object::Nothing);
        };
        match self.argument(place) {
            None => Meaning::Object(self.object(place)),
            Some(Given::Named(declared)) => Meaning::Object(self.object(declared)),
            Some(Given::Value { giver, value, at }) => Meaning::Given {
                parameter: place,
                giver,
                value,
                at,
            },
        }
    }

    /// The number of the event that a name of a component denotes, and 0 where it denotes none.
    pub fn event(&self, component: u32, name: &Name) -> u32
        requires names { looks.AreNamesOf self.now }
        requires component { component < length (components_of (looks.source_for self.now)) }
        ensures { result ≡ event_number (looks.component_at self.now component) name.now }
    {
        event_of(&self.meaning(component, name))
    }

    /// The number of the variable that a name of a component denotes, and 0 where it denotes none.
    pub fn variable(&self, component: u32, name: &Name) -> u32
        requires names { looks.AreNamesOf self.now }
        requires component { component < length (components_of (looks.source_for self.now)) }
        ensures { result ≡ variable_number (looks.component_at self.now component) name.now }
    {
        variable_of(&self.meaning(component, name))
    }
}
