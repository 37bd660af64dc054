//! The declared variables, found by their names.

ghost use Rattle.std.specs.Prelude.{◌≡◌, ◌<◌, ◌^◌, IfOk, is_some, length, slice_get};
ghost use Rattle.std.specs.Option.{option_copied};
ghost use Rattle.st_ast.specs.Names.{declared, place_of};
ghost use Rattle.st_check.specs.Keys.{keys_of};
ghost use Rattle.st_check.specs.Told.{IsPlace};

use crate::names::Names;
use cif_base::Memory;
use st_ast::StVar;
use std::alloc::Global;
use std::marker::Model;

/// The declared variables with the map of their names.
#[derive(Drop)]
pub struct Scope<'a> {
    vars: &'a [StVar],
    names: &'a Names,
}

impl<'a> Model for Scope<'a> {
    ghost use Rattle.std.specs.Prelude.{◌≡◌, ◌<◌, ◌^◌, List, length};
    ghost use Rattle.std.specs.Coded.{coded_list};
    ghost use Rattle.st_ast.specs.declared.tree.StVar.{StVar};
    ghost use Rattle.st_ast.specs.contracts.tree.StVar as variable;
    ghost use Rattle.st_check.specs.Keys.{keys_of};

    ghost Value = { List StVar };

    ghost coded = { coded_list variable.the_row.coded };

    ghost view = { λ s. s.vars.now };

    ghost invariant = { λ s. (length s.vars.now < 2 ^ 32) × (s.names.now ≡ keys_of s.vars.now) };
}

impl<'a> Scope<'a> {
    /// The scope of these variables, whose names are numbered as they are.
    pub fn new(vars: &'a [StVar], names: &'a Names) -> Scope<'a>
        requires few { length vars.now < 2 ^ 32 }
        requires numbered { names.now ≡ keys_of vars.now }
        ensures { result ≡ vars.now }
    {
        Scope { vars, names }
    }

    /// The number of the variable with a name, if it is declared.
    pub fn find(&self, alloc: Global, name: &[u8]) -> Result<Option<u32>, Memory>
        ensures { IfOk result (λ found. IsPlace self.now name.now found) }
    {
        match self.names.number(alloc, name)? {
            Some(place) => Ok(Some(place as u32)),
            None => Ok(None),
        }
    }

    /// The place of the variable with a name, and the number of the variables where none has it.
    pub fn place(&self, alloc: Global, name: &[u8]) -> Result<u32, Memory>
        ensures { IfOk result (λ place. place ≡ place_of self.now name.now) }
    {
        match self.find(alloc, name)? {
            Some(place) => Ok(place),
            None => Ok(self.vars.len() as u32),
        }
    }

    /// The declaration at a place.
    pub fn at(&self, place: u32) -> Option<&StVar>
        ensures { option_copied result ≡ slice_get self.now place }
    {
        self.vars.get(place as usize)
    }

    /// Whether a name is declared.
    pub fn declares(&self, alloc: Global, name: &[u8]) -> Result<bool, Memory>
        ensures { IfOk result (λ known. known ≡ is_some (declared self.now name.now)) }
    {
        let place = self.place(alloc, name)?;
        Ok(self.at(place).is_some())
    }
}
