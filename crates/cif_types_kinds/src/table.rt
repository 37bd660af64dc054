//! The kinds of all that a source declares.

ghost use Rattle.std.specs.Prelude.{◌≡◌, Some};
ghost use Rattle.cif_system.specs.Words.{AreDistinct};
ghost use Rattle.cif_source.specs.Kinds.{same_kind};
ghost use Rattle.cif_types_kinds.specs.Tables as tables;

use crate::kind::{Channel, Kind};
use cif_base::{Items, Text};
use cif_scope::Found;

/// The kinds of what a source declares: for each body and each name that it declares there the kind of what stands there, and
/// what is sent along it where it is an event; and the lists of literals by their numbers, of which no two are equal.
#[derive(Debug, Drop)]
pub struct KindTable {
    pub kinds: Items<Items<Kind>>,
    pub channels: Items<Items<Channel>>,
    pub lists: Items<Items<Text>>,
}

/// The kind in a slot, and none past the end.
fn slot_kind(slots: &Items<Kind>, slot: u32) -> Kind
    ensures { result ≡ tables.slot_kind (Some slots.now) slot }
{
    match slots.get(slot as usize) {
        Some(kind) => *kind,
        None => Kind::None,
    }
}

fn slot_channel(slots: &Items<Channel>, slot: u32) -> Channel
    ensures { result ≡ tables.slot_channel (Some slots.now) slot }
{
    match slots.get(slot as usize) {
        Some(channel) => *channel,
        None => Channel::No,
    }
}

/// Whether two kinds are one, where there are so many lists of literals.
fn is_same_among(count: usize, one: Kind, other: Kind) -> bool
    ensures { result ≡ tables.is_same_among count one other }
{
    match one {
        Kind::Bool => matches!(other, Kind::Bool),
        Kind::Int => matches!(other, Kind::Int),
        Kind::Enum(m) => match other {
            Kind::Enum(n) => m == n && (m as usize) < count,
            Kind::Bool | Kind::Int | Kind::None => false,
        },
        Kind::None => false,
    }
}

impl KindTable {
    /// Whether two kinds are one. What has no kind is of one kind with nothing.
    #[tactic(auto, using(crate::proofs::SameLaws::same_kinds))]
    pub fn is_same(&self, one: Kind, other: Kind) -> bool
        requires { AreDistinct self.now.lists }
        ensures { result ≡ same_kind (tables.kind_for self.now.lists one) (tables.kind_for self.now.lists other) }
    {
        is_same_among(self.lists.len(), one, other)
    }

    /// The kind in a slot of a body. Where there is no such slot, there is none.
    pub fn kind(&self, body: u32, slot: u32) -> Kind
        ensures { result ≡ tables.kind_at_slot self.now body slot }
    {
        match self.kinds.get(body as usize) {
            Some(slots) => slot_kind(slots, slot),
            None => Kind::None,
        }
    }

    /// What is sent along what stands in a slot of a body. Where there is no such slot, there is no channel.
    pub fn channel(&self, body: u32, slot: u32) -> Channel
        ensures { result ≡ tables.channel_at_slot self.now body slot }
    {
        match self.channels.get(body as usize) {
            Some(slots) => slot_channel(slots, slot),
            None => Channel::No,
        }
    }

    /// The kind of what was found. Where nothing was, there is none.
    pub fn kind_found(&self, found: Option<Found>) -> Kind
        ensures { result ≡ tables.kind_found self.now found }
    {
        match found {
            Some(found) => self.kind(found.body, found.slot),
            None => Kind::None,
        }
    }

    /// What is sent along what was found. Where nothing was, there is no channel.
    pub fn channel_found(&self, found: Option<Found>) -> Channel
        ensures { result ≡ tables.channel_found self.now found }
    {
        match found {
            Some(found) => self.channel(found.body, found.slot),
            None => Channel::No,
        }
    }

    /// The kind in the slot of a body that was found. Where none was, there is none.
    pub fn kind_owned(&self, body: u32, slot: Option<u32>) -> Kind
        ensures { result ≡ tables.kind_owned self.now body slot }
    {
        match slot {
            Some(slot) => self.kind(body, slot),
            None => Kind::None,
        }
    }
}
