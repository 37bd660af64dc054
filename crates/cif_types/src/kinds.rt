//! The kinds of what a source declares.

ghost use Rattle.std.specs.Prelude.{◌≡◌};
ghost use Rattle.cif_source.specs.Source.{Source};
ghost use Rattle.cif_source.specs.Components.{Component, Entry};
ghost use Rattle.cif_source.specs.Lookup.{reached};
ghost use Rattle.cif_source.specs.Kinds.{kind_at};
ghost use Rattle.cif_scope.specs.Tables.{IsBody};
ghost use Rattle.cif_scope.specs.Scopes.{IsEntry};
ghost use Rattle.cif_types.specs.Kinds.{AreKindsOf};
ghost use Rattle.cif_types.specs.KindsTold.{IsKind, IsOneWith, lists_of, kind_told};

use cif_types_kinds::{Kind as Entered, KindTable};

/// The kind of a value.
#[derive(Clone, Copy, Debug, PartialEq, Eq)]
pub enum Kind {
    Bool,
    Int,
    /// A literal of an enumeration. Two enumerations have one number exactly where they are the same type: where they have the same
    /// literals in the same order.
    Enum { id: u32 },
    /// What is declared has no value.
    NoValue,
}

/// The kinds of a source. That there are any says that its bodies, also those of definitions that nobody instantiates, keep the
/// rules on kinds.
#[derive(Debug, Drop)]
pub struct Kinds {
    pub(crate) table: KindTable,
}

/// What is told of a kind, where there are so many lists of literals.
fn told(count: usize, entered: Entered) -> Kind
    ensures { result ≡ kind_told count entered }
{
    match entered {
        Entered::Bool => Kind::Bool,
        Entered::Int => Kind::Int,
        Entered::Enum(id) => {
            if (id as usize) < count {
                Kind::Enum { id }
            } else {
                Kind::NoValue
            }
        }
        Entered::None => Kind::NoValue,
    }
}

impl Kinds {
    /// The kind of the values of what a body declares in a slot, by the numbers that the scopes give: of a constant, a variable or an
    /// algebraic parameter that of its type, of a literal its enumeration, and of a location or a location parameter `Bool`. What has
    /// no value, as a type, an event or a component, and a slot that isn't there, is `NoValue` (CIF 3 language reference, "Types").
    #[tactic(auto, using(crate::proofs::KindsToldLaws::kind_in_slot, crate::proofs::KindsToldLaws::one_in_slot))]
    pub fn kind_of(&self, body: u32, slot: u32) -> Kind
        ensures kind { (t : Source) (c : Component) (e : Entry) → AreKindsOf t self.now → IsBody t body c → IsEntry c e slot
            → IsKind (lists_of self.now) (kind_at (reached (c, e))) result }
        ensures one { (t : Source) (c : Component) (e : Entry) → AreKindsOf t self.now → IsBody t body c → IsEntry c e slot
            → IsOneWith (lists_of self.now) (kind_at (reached (c, e))) result }
    {
        told(self.table.lists.len(), self.table.kind(body, slot))
    }
}
