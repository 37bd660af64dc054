//! What a name finds, and the names of scopes.

ghost use Rattle.std.specs.Prelude.{◌≡◌, ◌<◌, ◌++◌, length, slice_get, Some, option_map, IfOk, OnOk};
ghost use Rattle.cif_source.specs.Source.{Source};
ghost use Rattle.cif_source.specs.Components.{Component};
ghost use Rattle.cif_source.specs.Lookup.{found};
ghost use Rattle.cif_scope.specs.declared.scope.ScopeName.{ScopeName};
ghost use Rattle.cif_scope.specs.Looks as looks;
ghost use Rattle.cif_scope.specs.Tables.{IsBody};
ghost use Rattle.cif_scope.specs.Scopes.{AreNumbered, Finds};

use crate::looked::{Looked, Slot};
use crate::looking::definition_of;
use crate::scope::What;
use crate::scopes::{Found, Scopes};
use crate::table::Table;
use cif_ast::{Ident, Name};
use cif_base::{Items, Memory, Text};
use std::alloc::Global;

impl Table {
    /// Adds the slot of an instance, where a further part of the name passes one.
    fn add_passed(&self, at: Looked, through: &mut Items<Slot>) -> Result<(), Memory>
        ensures { OnOk result (through.new ≡ through.old ++ looks.passed_slot self.now at) }
    {
        if let Looked::At(body, slot) = at {
            if let Some(What::Instance(_)) = self.what(body, slot) {
                through.push(Slot { body, slot })?;
            }
        }
        Ok(())
    }

    /// The further parts of a name, from where the first one leads.
    fn follow(
        &self,
        alloc: Global,
        definitions: &[Items<Option<u32>>],
        from: Looked,
        parts: &[Ident],
    ) -> Result<Option<Found>, Memory>
        ensures { IfOk result (λ f. f ≡ looks.followed self.now definitions.now from parts.now) }
    {
        let mut at = from;
        let mut through = Items::new(alloc);
        for part in parts {
            self.add_passed(at, &mut through)?;
            at = self.step(definitions, true, at, &part.text);
        }
        Ok(match at {
            Looked::At(body, slot) => Some(Found {
                body,
                slot,
                through,
            }),
            Looked::Missing | Looked::Blocked => None,
        })
    }

    fn find(
        &self,
        alloc: Global,
        definitions: &[Items<Option<u32>>],
        scope: u32,
        name: &Name,
    ) -> Result<Option<Found>, Memory>
        ensures { IfOk result (λ f. f ≡ looks.find self.now definitions.now scope name.now) }
    {
        match name.parts.as_slice().split_first() {
            Some((first, rest)) => {
                let at = self.first(name.from_root, scope, &first.text);
                self.follow(alloc, definitions, at, rest)
            }
            None => Ok(None),
        }
    }
}

impl Scopes {
    /// The number of bodies.
    #[tactic(auto, using(crate::proofs::FewLaws::few_bodies))]
    pub fn bodies(&self) -> u32
        ensures { result ≡ length self.now.table.scopes }
    {
        self.table.scopes.len() as u32
    }

    /// The number of names of a body.
    #[tactic(auto, using(crate::proofs::FewLaws::few_names))]
    pub fn slots(&self, body: u32) -> u32
        requires { body < length self.now.table.scopes }
        ensures { result ≡ length (looks.names_at self.now.table body) }
    {
        let scope = &self.table.scopes.as_slice()[body as usize];
        scope.names.len() as u32
    }

    /// The name of a slot.
    pub fn name(&self, body: u32, slot: u32) -> &Ident
        requires body { body < length self.now.table.scopes }
        requires slot { slot < length (looks.names_at self.now.table body) }
        ensures { option_map (λ (n : ScopeName). n.name) (slice_get (looks.names_at self.now.table body) slot) ≡ Some result.now }
    {
        let scope = &self.table.scopes.as_slice()[body as usize];
        &scope.names.as_slice()[slot as usize].name
    }

    /// What a slot is, where there is one.
    pub fn what(&self, body: u32, slot: u32) -> Option<What>
        ensures { result ≡ looks.what_at self.now.table body slot }
    {
        self.table.what(body, slot)
    }

    /// The slot of a name in the scope of a body.
    pub fn own(&self, body: u32, text: &Text) -> Option<u32>
        ensures { result ≡ looks.slot_at self.now.table body text.now }
    {
        self.table.slot(body, text)
    }

    /// The body in which a body stands, which the specification doesn't have.
    pub fn outer(&self, body: u32) -> Option<u32>
        ensures { result ≡ looks.outer_at self.now.table body }
    {
        self.table.outer(body)
    }

    /// The body of the definition of an instance, by the instance's number in its body.
    pub fn definition(&self, body: u32, instance: u32) -> Option<u32>
        ensures { result ≡ looks.definition_at self.now.definitions body instance }
    {
        definition_of(self.definitions.as_slice(), body, instance)
    }

    /// Where a name in a body leads, through instances where `passes` says so.
    pub fn look(&self, passes: bool, scope: u32, name: &Name) -> Looked
        ensures { result ≡ looks.look self.now.table self.now.definitions passes scope name.now }
    {
        self.table
            .look(self.definitions.as_slice(), passes, scope, name)
    }

    /// What a name in a body finds, or `None` where it finds nothing.
    pub fn find(&self, alloc: Global, scope: u32, name: &Name) -> Result<Option<Found>, Memory>
        requires { scope < length self.now.table.scopes }
        ensures { (t : Source) (c : Component) → AreNumbered t self.now → IsBody t scope c
            → IfOk result (λ f. Finds t (found c name.now) f) }
    {
        self.table
            .find(alloc, self.definitions.as_slice(), scope, name)
    }
}
