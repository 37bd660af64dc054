//! Looking names up: the first part in the scope where it stands and outward, each further part in the body that the part
//! before it denotes (CIF 3 language reference, "Scoping").

ghost use Rattle.std.specs.Prelude.{◌≡◌, length};
ghost use Rattle.cif_scope.specs.Looks as looks;

use crate::looked::Looked;
use crate::scope::What;
use crate::table::Table;
use cif_ast::{Ident, Name};
use cif_base::{Items, Text};

impl Table {
    /// The slot of a name in the scope of a body.
    #[tactic(auto, using(crate::proofs::FewLaws::few_slot))]
    pub fn slot(&self, body: u32, text: &Text) -> Option<u32>
        ensures { result ≡ looks.slot_at self.now body text.now }
    {
        let names = self.names.get(body as usize)?;
        let slot = names.slot(text)?;
        Some(slot as u32)
    }

    /// The body in which a body stands.
    pub fn outer(&self, body: u32) -> Option<u32>
        ensures { result ≡ looks.outer_at self.now body }
    {
        let scope = self.scopes.get(body as usize)?;
        scope.outer
    }

    /// What stands in a slot of a body.
    pub fn what(&self, body: u32, slot: u32) -> Option<What>
        ensures { result ≡ looks.what_at self.now body slot }
    {
        let scope = self.scopes.get(body as usize)?;
        let name = scope.names.get(slot as usize)?;
        Some(name.what)
    }

    /// A name in the scope of a body and outward.
    fn outward(&self, body: u32, text: &Text) -> Looked
        ensures { result ≡ looks.look_out self.now (length self.now.scopes) body text.now }
    {
        let mut at = body;
        for _turn in 0..self.scopes.len() {
            if let Some(slot) = self.slot(at, text) {
                return Looked::At(at, slot);
            }
            match self.outer(at) {
                Some(outer) => at = outer,
                None => return Looked::Missing,
            }
        }
        Looked::Missing
    }

    /// A name in a body, where parameters aren't found.
    fn inside(&self, body: u32, text: &Text) -> Looked
        ensures { result ≡ looks.look_inside self.now body text.now }
    {
        let Some(slot) = self.slot(body, text) else {
            return Looked::Missing;
        };
        match self.what(body, slot) {
            None | Some(What::Parameter(_)) => Looked::Missing,
            Some(_) => Looked::At(body, slot),
        }
    }

    /// A name in the body of an instance's definition.
    fn inside_instance(
        &self,
        definitions: &[Items<Option<u32>>],
        body: u32,
        instance: u32,
        text: &Text,
    ) -> Looked
        ensures { result ≡ looks.inside_instance self.now (looks.definition_at definitions.now body instance) text.now }
    {
        match definition_of(definitions, body, instance) {
            Some(definition) => self.inside(definition, text),
            None => Looked::Missing,
        }
    }

    /// One further part of a name. Instances are passed where `passes` says so.
    pub fn step(
        &self,
        definitions: &[Items<Option<u32>>],
        passes: bool,
        from: Looked,
        text: &Text,
    ) -> Looked
        ensures { result ≡ looks.step self.now definitions.now passes from text.now }
    {
        let Looked::At(body, slot) = from else {
            return from;
        };
        match self.what(body, slot) {
            Some(What::Component(inner)) => self.inside(inner, text),
            Some(What::Instance(instance)) if passes => {
                self.inside_instance(definitions, body, instance, text)
            }
            _ => Looked::Blocked,
        }
    }

    /// The first part of a name, which is looked up at the specification alone where a dot stands before it.
    pub fn first(&self, from_root: bool, body: u32, text: &Text) -> Looked
        ensures { result ≡ looks.first_part self.now from_root body text.now }
    {
        if !from_root {
            return self.outward(body, text);
        }
        match self.slot(0, text) {
            Some(slot) => Looked::At(0, slot),
            None => Looked::Missing,
        }
    }

    /// The further parts of a name.
    fn steps(
        &self,
        definitions: &[Items<Option<u32>>],
        passes: bool,
        from: Looked,
        parts: &[Ident],
    ) -> Looked
        ensures { result ≡ looks.steps self.now definitions.now passes from parts.now }
    {
        let mut at = from;
        for part in parts {
            at = self.step(definitions, passes, at, &part.text);
        }
        at
    }

    /// Where a name in a body leads.
    pub fn look(
        &self,
        definitions: &[Items<Option<u32>>],
        passes: bool,
        body: u32,
        name: &Name,
    ) -> Looked
        ensures { result ≡ looks.look self.now definitions.now passes body name.now }
    {
        match name.parts.as_slice().split_first() {
            Some((first, rest)) => {
                let at = self.first(name.from_root, body, &first.text);
                self.steps(definitions, passes, at, rest)
            }
            None => Looked::Missing,
        }
    }
}

/// The body of the definition of an instance.
pub fn definition_of(definitions: &[Items<Option<u32>>], body: u32, instance: u32) -> Option<u32>
    ensures { result ≡ looks.definition_at definitions.now body instance }
{
    let of_body = definitions.get(body as usize)?;
    let found = of_body.get(instance as usize)?;
    *found
}
