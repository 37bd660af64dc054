//! Scopes with their names for look-up.

ghost use Rattle.std.specs.Prelude.{◌≡◌, true};
ghost use Rattle.cif_scope.specs.Few.{are_few};

use crate::names::Names;
use crate::scope::Scope;
use cif_base::Items;

/// The scopes of all bodies, and for each its names by their slots. Numbers of bodies and slots are below 2^32.
#[derive(Drop)]
pub struct Table {
    pub scopes: Items<Scope>,
    pub names: Items<Names>,
    pub ghost few: { are_few scopes names ≡ true },
}
