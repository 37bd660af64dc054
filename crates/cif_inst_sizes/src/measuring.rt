//! What names of a component stand for, and what that weighs: an algebraic variable and a parameter what their definitions weigh,
//! and every other name one form.

ghost use Rattle.std.specs.Prelude.{◌≡◌, ◌<◌, List, length, map, slice_get, Some, IfOk, IfSome};
ghost use Rattle.cif_inst_parameters.specs.Following.{given_at};
ghost use Rattle.cif_inst_parameters.specs.Given.{given_items};
ghost use Rattle.cif_source.specs.Objects.{components_of};
ghost use Rattle.cif_inst_names.specs.Looking.{AreNamesOf};
ghost use Rattle.cif_inst_sizes.specs.Definitions.{DefinitionTree};
ghost use Rattle.cif_inst_sizes.specs.Naming as naming;
ghost use Rattle.cif_inst_sizes.specs.Weights.{Knows, names_by, source_by, home};

use crate::weights::Weights;
use cif_alg_measure::Measure;
use cif_ast::Name;
use cif_base::Memory;
use cif_inst_components::Place;
use cif_inst_names::{Looking, Meaning, Object};
use cif_inst_parameters::Given;

/// Measures expressions of the component with that number, by the measures of definitions that are known. Where one that is named
/// isn't known yet, memory is said to be out.
#[derive(Clone, Copy)]
pub struct Measurer<'a, 'b, 'c> {
    pub looking: &'c Looking<'a, 'b>,
    pub weights: &'c Weights,
    pub component: u32,
}

/// The number of an algebraic variable, of which there are so many; nothing for every other object.
fn variable(count: u32, object: Object) -> Result<Option<u32>, Memory>
    ensures { IfOk result (λ o. naming.IsVariableNumber count object o) }
{
    match object {
        Object::Alg(number) => {
            if number < count {
                Ok(Some(number))
            } else {
                Err(Memory)
            }
        }
        Object::Known(_)
        | Object::Event(_)
        | Object::Var(_)
        | Object::Input(_)
        | Object::Location { .. }
        | Object::Nothing => Ok(None),
    }
}

impl<'a, 'b, 'c> Measurer<'a, 'b, 'c> {
    /// What is given for the parameter at a place.
    fn given(&self, place: Place) -> Option<Given<'a>>
        ensures { result ≡ given_at (map given_items self.now.looking.now.given.now) place }
    {
        let of_component = self.looking.given.get(place.component as usize)?;
        let given = of_component.get(place.slot as usize)?;
        Some(*given)
    }

    /// The number of the argument at a place.
    fn number(&self, place: Place) -> Option<u32>
        ensures { IfSome result (λ n. naming.argument_number self.now.weights.now.firsts place ≡ Some n) }
    {
        let first = self.weights.firsts.get(place.component as usize)?;
        first.checked_add(place.slot)
    }

    /// The argument that a name stands for.
    fn argument(&self, name: &Name) -> Result<u32, Memory>
        requires names { AreNamesOf self.now.looking.now }
        requires component { self.now.component < length (components_of (source_by self.now)) }
        ensures { IfOk result (λ n. (all : List DefinitionTree) → naming.AreArguments (map given_items self.now.looking.now.given.now) self.now.weights.now.firsts all
            → naming.IsArgument (source_by self.now) all (home self.now) name.now n) }
    {
        let looking = self.looking;
        let found = looking
            .components
            .find(looking.scopes, self.component, name);
        let Some(place) = found else {
            return Err(Memory);
        };
        let Some(Given::Value { .. }) = self.given(place) else {
            return Err(Memory);
        };
        match self.number(place) {
            Some(number) => Ok(number),
            None => Err(Memory),
        }
    }

    /// The number of the definition that a name stands for, if it stands for one.
    pub fn definition(&self, name: &Name) -> Result<Option<u32>, Memory>
        requires names { AreNamesOf self.now.looking.now }
        ensures { IfOk result (λ o. (all : List DefinitionTree) → naming.AreArguments (map given_items self.now.looking.now.given.now) self.now.weights.now.firsts all
            → naming.Resolves (source_by self.now) self.now.weights.now.count all (home self.now) name.now o) }
    {
        if self.component as usize >= self.looking.components.len() {
            return Err(Memory);
        }
        match self.looking.meaning(self.component, name) {
            Meaning::Object(object) => variable(self.weights.count, object),
            Meaning::Given { .. } => Ok(Some(self.argument(name)?)),
        }
    }

    /// The measure of a definition that is known.
    fn measure(&self, number: u32) -> Result<Measure, Memory>
        ensures { IfOk result (λ m. slice_get self.now.weights.now.table number ≡ Some (Some m)) }
    {
        match self.weights.table.get(number as usize) {
            Some(Some(measure)) => Ok(*measure),
            _ => Err(Memory),
        }
    }

    /// The measure of what a name stands for.
    pub fn name(&self, name: &Name) -> Result<Measure, Memory>
        requires { Knows self.now }
        ensures { IfOk result (λ m. m ≡ names_by self.now name.now) }
    {
        match self.definition(name)? {
            None => Ok(Measure::one()),
            Some(number) => self.measure(number),
        }
    }
}
